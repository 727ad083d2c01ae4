//! The words that commands begin with.
ghost use Rattle.std.specs.Prelude.{◌≡◌};
ghost use Rattle.descriptor_lines.specs.Keywords.{keyword_of};

/// The first word of a line with a command.
#[derive(Clone, Copy, Debug)]
pub enum Keyword {
    Limit,
    Layout,
    Size,
    Script,
    Alloc,
    Free,
    Cleanup,
    Show,
}

impl Keyword {
    /// The command that a word begins.
    pub fn of_word(word: &[u8]) -> Option<Keyword>
        ensures { result ≡ keyword_of word.now }
    {
        match word {
            b"limit" => Some(Keyword::Limit),
            b"layout" => Some(Keyword::Layout),
            b"size" => Some(Keyword::Size),
            b"script" => Some(Keyword::Script),
            b"alloc" => Some(Keyword::Alloc),
            b"free" => Some(Keyword::Free),
            b"cleanup" => Some(Keyword::Cleanup),
            b"show" => Some(Keyword::Show),
            _ => None,
        }
    }
}
