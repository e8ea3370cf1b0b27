// Numbers of two bytes, the low byte first.
ghost use Rattle.std.specs.Prelude.{◌≡◌, ◌≤◌};
ghost use Rattle.pictures.specs.Numbers.{largest_number, two_bytes};

// The largest number of two bytes.
pub const LARGEST_NUMBER: usize = 65535;

// The number of two bytes. It is no wider than they are, so that a loop over a row works on many at once.
pub fn number(low: u8, high: u8) -> u16
    ensures { (result ≡ two_bytes low high) × (result ≤ largest_number) }
{
    u16::from_le_bytes([low, high])
}
