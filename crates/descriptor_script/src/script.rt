//! The words that a device is still to read.
ghost use Rattle.std.specs.Prelude.{drop, ◌≡◌};
ghost use Rattle.std.specs.Vec.Iter.{into_iter_items};
ghost use Rattle.descriptor_script.specs.Scripted.Script.{next_word};

use crate::answer::Answer;
use std::vec::{IntoIter, Vec};

/// A script, read word by word. After its end each word is `Ok`.
#[derive(Debug, Drop)]
pub struct Script {
    words: IntoIter<Answer>,
}

impl Script {
    pub fn new(words: Vec<Answer>) -> Self
        ensures { into_iter_items result.words ≡ words.items }
    {
        Script {
            words: words.into_iter(),
        }
    }

    /// Reads one word.
    pub fn read(&mut self) -> Answer
        ensures word { result ≡ next_word (into_iter_items self.old.words) }
        ensures rest { into_iter_items self.new.words ≡ drop 1 (into_iter_items self.old.words) }
    {
        self.words.next().unwrap_or(Answer::Ok)
    }
}
