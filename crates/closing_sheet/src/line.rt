// A row's line on the sheet.
ghost use Rattle.std.specs.Prelude.{◌≡◌, ◌+◌, ◌≤◌, length};
ghost use Rattle.formats.specs.Part.{put};
ghost use Rattle.closing_sheet.specs.Sheet.{line_text};

use text::Text;

#[derive(Clone, Copy, Debug, PartialEq, Eq)]
pub struct Line {
    pub row: u64,
    // A number: of a row in no state byte 0 is shown.
    pub state: u64,
    pub permits: u64,
    pub rights: u64,
    pub copies: u64,
}

impl Line {
    // How many bytes the line has as text.
    pub fn len(self) -> usize
        ensures text_length { result ≡ length (line_text self) }
        ensures at_most_105 { result ≤ 105 }
    {
        text::len(self.row)
            + text::len(self.state)
            + text::len(self.permits)
            + text::len(self.rights)
            + text::len(self.copies)
            + 5
    }

    // Writes the line, for which there is room. No `Display`, as `Text` says.
    pub(crate) fn write(self, text: &mut Text)
        requires { text.old.at + length (line_text self) ≤ length text.old.out.now }
        ensures place { text.new.at ≡ text.old.at + length (line_text self) }
        ensures written { text.new.out.now ≡ put text.old.out.now text.old.at (line_text self) }
        ensures name { text.new.out.ghost_name ≡ text.old.out.ghost_name }
    {
        text.number(self.row, b' ');
        text.number(self.state, b' ');
        text.number(self.permits, b' ');
        text.number(self.rights, b' ');
        text.number(self.copies, b'\n');
    }
}
