// A sweep's second output: a line of five bytes for each line of the master.
ghost use Rattle.std.specs.Prelude.{◌≡◌, ◌*◌, ◌==◌, ◌<◌, count_by, length};

// How many bytes the number lines of this master have.
pub fn number_bytes(master: &[u8]) -> usize
    requires { length master.now < 0x10000 }
    ensures { result ≡ 5 * count_by (λ b. b == 0x0A) master.now }
{
    5 * master.iter().filter(|byte| **byte == b'\n').count()
}
