// Writing records into a list.
ghost use Rattle.std.specs.Prelude.{◌≡◌, ◌+◌, ◌^◌, ◌<◌, ◌≤◌, [], ◌∷◌, length};
ghost use Rattle.emit.specs.Emitting.{code_of, Appends};

use machine::Instruction;

// A list that is lent, and how many records were written from its front on; past its end they are only counted. So each
// writer says how far the count may be and how far it goes: one that stops at its limit would need the same bounds.
#[derive(Drop)]
pub(crate) struct Records<'a> {
    list: &'a mut [Instruction],
    len: usize,
}

impl<'a> Records<'a> {
    pub(crate) fn new(list: &'a mut [Instruction]) -> Records<'a>
        ensures into_the_list { result.list.ghost_name ≡ list.entry.ghost_name }
        ensures nothing_written { code_of result.list.now result.len ≡ code_of list.old 0 }
    {
        Records { list, len: 0 }
    }

    // Always inlined: a call for each record costs as much as writing it.
    #[inline(always)]
    pub(crate) fn put(&mut self, x: Instruction)
        requires room { self.old.len < 2 ^ 32 }
        ensures one_record_more { Appends (x ∷ []) self.old self.new }
    {
        if self.len < self.list.len() {
            self.list[self.len] = x;
        }
        self.len += 1;
    }

    pub(crate) fn len(&self) -> usize
        ensures records_written { result ≡ self.now.len }
    {
        self.len
    }

    pub(crate) fn put_all(&mut self, xs: &[Instruction])
        requires room { self.old.len < 2 ^ 29 }
        requires short { length xs.now ≤ 256 }
        ensures each_record { Appends xs.now self.old self.new }
        ensures few { self.new.len ≤ self.old.len + 256 }
    {
        for x in xs {
            self.put(*x);
        }
    }
}
