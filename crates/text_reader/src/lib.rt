// A reader holds the job text and a position in it. It lends out the text from its next line on, and moves by a line. Document 01 names this
// form, so the text stays whole beside the position.
#![tactic(auto)]

ghost use Rattle.std.specs.Prelude.{◌≡◌, drop};
ghost use Rattle.text_model.specs.Positions.{next_line};

#[derive(Clone, Copy)]
pub struct Reader<'a> {
    pub text: &'a [u8],
    pub at: usize,
}

// A reader whose next line begins at `at`.
pub fn begin<'a>(text: &'a [u8], at: usize) -> Reader<'a>
    ensures { (result.text ≡ text.entry) × (result.at ≡ at) }
{
    Reader { text, at }
}

impl<'a> Reader<'a> {
    // A reader whose next line is the first.
    pub fn new(text: &'a [u8]) -> Self
        ensures { (result.text ≡ text.entry) × (result.at ≡ 0) }
    {
        begin(text, 0)
    }

    // The text from the next line on.
    pub fn rest(self) -> &'a [u8]
        ensures { result.now ≡ drop self.entry.at self.entry.text.now }
    {
        &self.text[self.at.min(self.text.len())..]
    }

    // The reader after its next line.
    pub fn next_line(self) -> Self
        ensures { (result.text ≡ self.entry.text) × (result.at ≡ next_line self.entry.text.now self.entry.at) }
    {
        let at = match text_parse::split_once(self.rest(), b'\n') {
            Some((_, after)) => self.text.len() - after.len(),
            None => self.text.len(),
        };
        Reader {
            text: self.text,
            at,
        }
    }
}
