// What stands between the separators of a text, one part after the other.
ghost use Rattle.std.specs.Prelude.{◌≡◌, [], ◌∷◌, drop, MatchOption};
ghost use Rattle.texts.specs.Parts.{parts, parts_left};

use memchr::memchr;

// The parts of a text that are left; none once the last was given.
#[derive(Drop)]
pub struct Parts<'a> {
    rest: Option<&'a [u8]>,
    separator: u8,
}

impl<'a> Parts<'a> {
    // The words of a line, with one space between two of them.
    pub fn words(line: &'a [u8]) -> Parts<'a>
        ensures all_words_are_left { parts_left result ≡ parts 32 line.now }
    {
        Parts {
            rest: Some(line),
            separator: b' ',
        }
    }

    // The lines of a text, each closed by a line feed; what follows the last feed is a part as well.
    pub fn lines(text: &'a [u8]) -> Parts<'a>
        ensures all_lines_are_left { parts_left result ≡ parts 10 text.now }
    {
        Parts {
            rest: Some(text),
            separator: b'\n',
        }
    }

    pub fn next_part(&mut self) -> Option<&'a [u8]>
        ensures the_first_part_that_was_left { MatchOption result ((parts_left self.old ≡ []) × (parts_left self.new ≡ [])) (λ part. parts_left self.old ≡ part.now ∷ parts_left self.new) }
    {
        let text = self.rest?;
        match memchr(self.separator, text) {
            Some(at) => {
                self.rest = Some(&text[at + 1..]);
                Some(&text[..at])
            }
            None => {
                self.rest = None;
                Some(text)
            }
        }
    }

    // The part behind so many others, which are passed over.
    pub fn nth_part(&mut self, before: u32) -> Option<&'a [u8]>
        ensures the_part_behind_so_many { MatchOption result ((drop before (parts_left self.old) ≡ []) × (parts_left self.new ≡ [])) (λ part. drop before (parts_left self.old) ≡ part.now ∷ parts_left self.new) }
    {
        for _ in 0..before {
            self.next_part()?;
        }
        self.next_part()
    }
}
