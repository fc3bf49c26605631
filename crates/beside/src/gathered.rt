// Bytes that are put one after another into fixed memory.
ghost use Rattle.std.specs.Prelude.{◌+◌, ◌≤◌, ◌≡◌, length};

// What has been put so far.
#[derive(Drop)]
pub(crate) struct Gathered<const N: usize> {
    space: [u8; N],
    used: usize,
    ghost fits: { used ≤ N },
}

impl<const N: usize> Gathered<N> {
    // Nothing yet.
    pub(crate) fn new() -> Gathered<N>
        ensures { result.used ≡ 0 }
    {
        Gathered {
            space: [0u8; N],
            used: 0,
        }
    }

    // Puts bytes after those that are there, as many as there is room for. It is compiled into its callers: of so many bytes as they name,
    // the compiler then makes a few stores.
    #[inline(always)]
    pub(crate) fn put(&mut self, bytes: &[u8])
        ensures { self.new.used ≤ self.old.used + length bytes.now }
    {
        let start = self.used;
        if bytes.len() <= N - start {
            let end = start + bytes.len();
            let space = &mut self.space[..];
            space[start..end].copy_from_slice(bytes);
            self.used = end;
        } else {
            self.put_cut(bytes);
        }
    }

    // The same where only a part has room.
    #[inline(never)]
    fn put_cut(&mut self, bytes: &[u8])
        ensures { self.new.used ≤ self.old.used + length bytes.now }
    {
        let start = self.used;
        let n = bytes.len().min(N - start);
        let space = &mut self.space[..];
        space[start..start + n].copy_from_slice(&bytes[..n]);
        self.used = start + n;
    }

    // What has been put.
    pub(crate) fn bytes(&self) -> &[u8] {
        &self.space[..self.used]
    }

    // For how many bytes there is still room.
    pub(crate) fn room(&self) -> usize
        ensures { result + self.now.used ≡ N }
    {
        N - self.used
    }

    // Begins anew.
    pub(crate) fn clear(&mut self)
        ensures { self.new.used ≡ 0 }
    {
        self.used = 0;
    }
}
