//! Lines of what a log shows.
ghost use Rattle.std.specs.Prelude.{◌≡◌, ◌≤◌, ◌+◌, ◌++◌, ◌∷◌, [], length, codes, decimal};
ghost use Rattle.dvg_log.specs.Entries.{map_entry};
ghost use Rattle.dvg_print.specs.Lines.{hex_3, hex_4, spaced};
ghost use Rattle.dvg_print.specs.Shows.{action_parts, entry_parts};
ghost use Rattle.dvg_print.specs.declared.line.TheConstants.{MOST_BYTES};

use crate::line::Line;
use dvg_driver::Action;
use dvg_log::Entry;

impl Line {
    // Appends what `action` did.
    #[inline(always)]
    pub(crate) fn action(&mut self, action: Action)
        requires { length self.old + 13 ≤ MOST_BYTES }
        ensures text { self.new ≡ self.old ++ spaced (action_parts action) }
        ensures grew { length self.new ≤ length self.old + 13 }
    {
        match action {
            Action::Peek => self.part(b"peek"),
            Action::Wrote(address, byte) => {
                self.with_address(b"wrote", address);
                self.hex_2(byte);
            }
            Action::Read(true) => self.part(b"read halted"),
            Action::Read(false) => self.part(b"read running"),
            Action::Sent => self.part(b"sent"),
            Action::Idle => self.part(b"idle"),
        }
    }

    // Appends `name`, which says what a fetch led to, its word address `address`, and the `word`
    // there.
    #[inline(always)]
    pub(crate) fn fetched(&mut self, name: &[u8], address: u16, word: u16)
        requires { length self.old + length name.now + 10 ≤ MOST_BYTES }
        ensures text { self.new ≡ self.old ++ spaced (name.now ∷ hex_3 address ∷ hex_4 word ∷ []) }
        ensures grew { length self.new ≡ length self.old + length name.now + 10 }
    {
        self.with_address(name, address);
        self.hex_4(word);
    }

    // Appends what an event led to, `entry`. `drew` is how many strokes the run drew, if `entry`
    // finished one.
    #[inline(always)]
    pub(crate) fn entry<S>(&mut self, entry: &Entry<S>, drew: usize)
        requires { length self.old + 36 ≤ MOST_BYTES }
        ensures text { self.new
            ≡ self.old ++ spaced (entry_parts (map_entry (λ _. drew) entry.now)) }
        ensures grew { length self.new ≤ length self.old + 36 }
    {
        match entry {
            Entry::Offered => self.part(b"offered"),
            Entry::Refused(fault) => {
                self.part(b"refused");
                self.fault(*fault);
            }
            Entry::Busy => self.part(b"busy"),
            Entry::Asked => self.part(b"asked"),
            Entry::NothingPublished => self.part(b"nothing published"),
            Entry::Acted(action) => self.action(*action),
            Entry::Started => self.part(b"started"),
            Entry::NoStrobe => self.part(b"no strobe"),
            Entry::Low(address, byte) => {
                self.with_address(b"low", *address);
                self.hex_2(*byte);
            }
            Entry::Fetched(address, word) => self.fetched(b"fetched", *address, *word),
            Entry::Done(address, word, _) => {
                self.fetched(b"done", *address, *word);
                self.number(drew);
            }
            Entry::Broke(address, fault) => {
                self.with_address(b"broke", *address);
                self.number(fault.number());
            }
            Entry::Still => self.part(b"still"),
            Entry::Cleared => self.part(b"cleared"),
        }
    }

    /// Becomes the line of a picture of so many `strokes`, which the event of this `number`
    /// finished.
    pub fn become_picture(&mut self, number: usize, strokes: usize)
        ensures { self.new ≡ codes "picture" ++ spaced (decimal number ∷ decimal strokes ∷ [])
            ++ 10 ∷ [] }
    {
        self.clear();
        self.text(b"picture");
        self.number(number);
        self.number(strokes);
        self.text(b"\n");
    }
}
