// Stretches of a lent slice: numbers copied into one, and one set to zero.
ghost use Rattle.std.specs.Prelude.{◌≡◌, ◌+◌, ◌≤◌, length};
ghost use Rattle.word.specs.Lists.{range, splice, cleared};

// The numbers of src, in dst from place a on. A loop, as most of them are few: a call of memcpy for each costs more.
pub fn copy_in(dst: &mut [u64], a: usize, src: &[u64])
    requires { a + length src.now ≤ length dst.old }
    ensures { dst.new ≡ splice dst.old a src.now }
{
    for i in 0..src.len() {
        dst[a + i] = src[i];
    }
}

// All numbers of src, in dst, which is as long. A loop too: `copy_from_slice` would have the archive ask its host for memmove.
pub fn copy_whole(dst: &mut [u64], src: &[u64])
    requires { length dst.old ≡ length src.now }
    ensures { dst.new ≡ src.now }
{
    copy_in(dst, 0, src);
}

// n zeros, in dst from place a on.
pub fn clear(dst: &mut [u64], a: usize, n: usize)
    requires { a + n ≤ length dst.old }
    ensures { dst.new ≡ cleared dst.old a n }
{
    dst[a..a + n].fill(0);
}
