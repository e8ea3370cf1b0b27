// What the lines of a file are counted for.
ghost use Rattle.std.specs.Prelude.{◌≡◌, ◌&&◌, eqb};

// Whether there are as many row lines and map lines as the height says, each of them full. By numbers:
// the facts of a text are text_scan's, and no decision stands on what reads one.
pub fn counts_agree(height: usize, rows: usize, maps: usize, full: bool) -> bool
    ensures { result ≡ (eqb rows height && (eqb maps height && full)) }
{
    rows == height && maps == height && full
}
