// What hosts in C and Rust name by numbers, as pure functions. The numbers are the C interface's. One that names none is refused
// by 1, as a word that names none is in a file.
ghost use Rattle.std.specs.Prelude.{◌≡◌};
ghost use Rattle.export_answers.specs.Named.{sizing_of, finding_of, turning_of, carving_of, seaming_of, head_named, counts_named, kind_number, energy_number, host_size, host_method};

use energy::{EnergyRule, Method};
use pictures::{Kind, Refusal, Size};
use seam_rules::{Axis, Columns, Rows};
use text_theory::Head;

// The size of a picture, as hosts pass it and are answered it. Kind 0 is grey, 1 is rgb.
#[repr(C)]
#[derive(Clone, Copy, Debug, Default, PartialEq, Eq)]
pub struct HostSize {
    pub width: usize,
    pub height: usize,
    pub kind: u8,
}

// The method that seams are found by, as hosts pass it and are answered it. Energy 0 is edge, 1 is flat, 2 is forward.
#[repr(C)]
#[derive(Clone, Copy, Debug, Default, PartialEq, Eq)]
pub struct HostMethod {
    pub energy: u8,
}

// The size and the method that a host names.
#[derive(Clone, Copy, Debug, PartialEq, Eq)]
pub struct Carving {
    pub size: Size,
    pub method: Method,
}

// The same, and the axis.
#[derive(Clone, Copy, Debug, PartialEq, Eq)]
pub struct Seaming {
    pub size: Size,
    pub method: Method,
    pub axis: Axis,
}

// The counts of rows and of columns that a host asks to have removed.
#[derive(Clone, Copy, Debug, PartialEq, Eq)]
pub struct Counts {
    pub rows: Rows,
    pub columns: Columns,
}

// Names the size; refused where its kind is neither 0 nor 1.
#[tactic(auto, unfolding(crate::specs::Named::sizing_of))]
impl TryFrom<HostSize> for Size {
    type Error = Refusal;

    ghost try_from_gives = { λ named size. size ≡ sizing_of named };

    fn try_from(named: HostSize) -> Result<Size, Refusal> {
        let kind = match named.kind {
            0 => Kind::Grey,
            1 => Kind::Rgb,
            _ => return Err(Refusal::Form),
        };
        Ok(Size {
            width: named.width,
            height: named.height,
            kind,
        })
    }
}

// Names the method; refused where its energy is over 2.
#[tactic(auto, unfolding(crate::specs::Named::finding_of))]
impl TryFrom<HostMethod> for Method {
    type Error = Refusal;

    ghost try_from_gives = { λ named method. method ≡ finding_of named };

    fn try_from(named: HostMethod) -> Result<Method, Refusal> {
        let energy = match named.energy {
            0 => EnergyRule::Edge,
            1 => EnergyRule::Flat,
            2 => EnergyRule::Forward,
            _ => return Err(Refusal::Form),
        };
        Ok(Method { energy })
    }
}

// Axis 0 is vertical, 1 is horizontal. A function, for u8 and Axis belong to other crates: TryFrom isn't this crate's to write.
#[tactic(auto, unfolding(crate::specs::Named::turning_of))]
pub fn axis_named(axis: u8) -> Result<Axis, Refusal>
    ensures { result ≡ turning_of axis }
{
    match axis {
        0 => Ok(Axis::Vertical),
        1 => Ok(Axis::Horizontal),
        _ => Err(Refusal::Form),
    }
}

// Names the size and the method; refused where one of them is.
#[tactic(auto, unfolding(crate::specs::Named::carving_of))]
pub fn carving_named(size: HostSize, method: HostMethod) -> Result<Carving, Refusal>
    ensures { result ≡ carving_of size method }
{
    let size = Size::try_from(size)?;
    let method = Method::try_from(method)?;
    Ok(Carving { size, method })
}

// Names the size, the method and the axis; refused where one of them is.
#[tactic(auto, unfolding(crate::specs::Named::seaming_of))]
pub fn seaming_named(size: HostSize, method: HostMethod, axis: u8) -> Result<Seaming, Refusal>
    ensures { result ≡ seaming_of size method axis }
{
    let Carving { size, method } = carving_named(size, method)?;
    let axis = axis_named(axis)?;
    Ok(Seaming { size, method, axis })
}

// The head of the file that a host asks for. A function, for its promise: of depth and growth, both numbers, neither stands for
// the other.
pub fn head_named(size: Size, method: Method, depth: usize, growth: usize) -> Head
    ensures { result ≡ head_named size method depth growth }
{
    Head {
        size,
        method,
        depth,
        growth,
    }
}

// In the same way, rows and columns.
pub fn counts_named(rows: usize, columns: usize) -> Counts
    ensures { result ≡ counts_named rows columns }
{
    Counts {
        rows: Rows(rows),
        columns: Columns(columns),
    }
}

// By a match, here and in energy_number: the numbers are this interface's, not the kind's.
fn kind_number(kind: Kind) -> u8
    ensures { result ≡ kind_number kind }
{
    match kind {
        Kind::Grey => 0,
        Kind::Rgb => 1,
    }
}

fn energy_number(energy: EnergyRule) -> u8
    ensures { result ≡ energy_number energy }
{
    match energy {
        EnergyRule::Edge => 0,
        EnergyRule::Flat => 1,
        EnergyRule::Forward => 2,
    }
}

// A size, as hosts are answered it: Size::try_from names it again.
impl From<Size> for HostSize {
    ghost from_gives = { λ size told. told ≡ host_size size };

    fn from(size: Size) -> HostSize {
        HostSize {
            width: size.width,
            height: size.height,
            kind: kind_number(size.kind),
        }
    }
}

// A method, in the same way: Method::try_from names it again.
impl From<Method> for HostMethod {
    ghost from_gives = { λ method told. told ≡ host_method method };

    fn from(method: Method) -> HostMethod {
        HostMethod {
            energy: energy_number(method.energy),
        }
    }
}
