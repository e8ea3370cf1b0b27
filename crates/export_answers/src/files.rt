// What is answered of multi-size files. The number stands beside the values: the C interface has it so.
ghost use Rattle.std.specs.Prelude.{◌≡◌};
ghost use Rattle.export_answers.specs.Files.{head_of, size_of};

use crate::{HostMethod, HostSize};
use pictures::{Refusal, Size};
use text_theory::Head;

// Size, method and range of a file. Or the number that it is refused by, and all else 0.
#[repr(C)]
#[derive(Clone, Copy, Debug, PartialEq, Eq)]
pub struct FileAnswer {
    pub number: u64,
    pub size: HostSize,
    pub method: HostMethod,
    pub depth: u64,
    pub growth: u64,
}

// The size of a picture shown, in the same way.
#[repr(C)]
#[derive(Clone, Copy, Debug, PartialEq, Eq)]
pub struct SizeAnswer {
    pub number: u64,
    pub size: HostSize,
}

impl From<Result<Head, Refusal>> for FileAnswer {
    ghost from_gives = { λ answer told. told ≡ head_of answer };

    fn from(answer: Result<Head, Refusal>) -> FileAnswer {
        match answer {
            Ok(head) => FileAnswer {
                number: 0,
                size: HostSize::from(head.size),
                method: HostMethod::from(head.method),
                depth: head.depth as u64,
                growth: head.growth as u64,
            },
            Err(why) => FileAnswer {
                number: pictures::number(why),
                size: HostSize::default(),
                method: HostMethod::default(),
                depth: 0,
                growth: 0,
            },
        }
    }
}

impl From<Result<Size, Refusal>> for SizeAnswer {
    ghost from_gives = { λ answer told. told ≡ size_of answer };

    fn from(answer: Result<Size, Refusal>) -> SizeAnswer {
        match answer {
            Ok(size) => SizeAnswer {
                number: 0,
                size: HostSize::from(size),
            },
            Err(why) => SizeAnswer {
                number: pictures::number(why),
                size: HostSize::default(),
            },
        }
    }
}
