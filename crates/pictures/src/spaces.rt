// A lent space cleared.
ghost use Rattle.std.specs.Prelude.{◌≡◌, length, replicate};

// Every byte of the space becomes 0. A function of one call: that a space is left 0 has one name and one promise.
pub fn clear(space: &mut [u8])
    ensures { space.new ≡ replicate (length space.old) 0 }
{
    space.fill(0);
}
