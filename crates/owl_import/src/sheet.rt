// The records that are written, one after another: 255 at most, of three bytes or fewer.
ghost use Rattle.std.specs.Prelude.{◌≡◌, ◌+◌, ◌*◌, ◌<◌, ◌≤◌, ◌++◌, [], length};
ghost use Rattle.arrayvec.specs.ArrayVec.{array_vec_len};

use arrayvec::ArrayVec;

// No `Model`: the contracts speak of its fields, and one ghost fact bounds them.
#[derive(Drop)]
pub(crate) struct Sheet {
    pub(crate) bytes: ArrayVec<u8, 765>,
    // How many records they are: of one to three bytes each, so the length of `bytes` does not say it.
    pub(crate) count: u8,
    ghost short: { array_vec_len bytes ≤ 3 * count },
}

impl Sheet {
    pub(crate) fn new() -> Sheet
        ensures bytes { result.bytes.items ≡ [] }
        ensures count { result.count ≡ 0 }
    {
        Sheet {
            bytes: ArrayVec::new(),
            count: 0,
        }
    }

    // Writes a record, and answers its number.
    pub(crate) fn put(&mut self, bytes: &[u8]) -> u8
        requires few { self.old.count < 255 }
        requires short { length bytes.now ≤ 3 }
        ensures bytes { self.new.bytes.items ≡ self.old.bytes.items ++ bytes.now }
        ensures count { self.new.count ≡ self.old.count + 1 }
        ensures number { result ≡ self.old.count }
    {
        let number = self.count;
        self.bytes.try_extend_from_slice(bytes).unwrap();
        self.count += 1;
        number
    }
}
