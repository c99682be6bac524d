// Numbers that stand one after the other in bytes, four bytes each.
ghost use Rattle.std.specs.Prelude.{◌≡◌, ◌+◌, ◌*◌, ◌≤◌, length};
ghost use Rattle.whole_session.specs.Numbers.{numbers_at, put_numbers};

use encoding::put_u32;

// The numbers go into the bytes from a place on.
pub fn write_numbers(b: &mut [u8], at: usize, xs: &[u32])
    requires { at + 4 * length xs.now ≤ length b.old }
    ensures written { b.new ≡ put_numbers b.old at xs.now (length xs.now) }
    ensures read_back { numbers_at b.new at (length xs.now) ≡ xs.now }
{
    for (i, x) in xs.iter().enumerate() {
        put_u32(b, at + 4 * i, *x);
    }
}
