//! Texts that are put after an answer which has memory for them.
ghost use Rattle.std.specs.Prelude.{◌≡◌, ◌≤◌, ◌+◌, ◌++◌, length, string_bytes, string_capacity};
ghost use Rattle.std.specs.Fmt.{decimal};
ghost use Rattle.descriptor_lines.specs.Answers.{HasReserveFor};

use itoa::Buffer;
use std::string::String;

/// Puts a text after the answer.
pub fn put(answer: &mut String, text: &str)
    requires { HasReserveFor (length text.now) answer.old }
    ensures text { string_bytes answer.new ≡ string_bytes answer.old ++ text.now }
    ensures reserve { string_capacity answer.old ≤ string_capacity answer.new }
{
    answer.push_str(text).unwrap();
}

/// Puts a number after the answer, and before it this text.
pub fn put_number(answer: &mut String, before: &str, number: u64)
    requires { HasReserveFor (length before.now + length (decimal number)) answer.old }
    ensures text { string_bytes answer.new ≡ string_bytes answer.old
        ++ (before.now ++ decimal number) }
    ensures reserve { string_capacity answer.old ≤ string_capacity answer.new }
{
    put(answer, before);
    put(answer, Buffer::new().format(number));
}
