// The words of a line.
ghost use Rattle.std.specs.Prelude.{◌≡◌, ℕ, ◌^◌, ◌<◌, List, [], length, IfErr, OnOk, OnErr};
ghost use Rattle.std.specs.Result.{OkIff};
ghost use Rattle.std.specs.Str.Parse.{IsNumeral, digits_value};
ghost use Rattle.std.specs.Str.Iter.{split_whitespace_rest};
ghost use Rattle.script.specs.Words.{Took};
ghost use Rattle.script.specs.declared.faults.Expected.TheVariants.{Number, Byte, End};

use crate::faults::{Expected, LineFault};
use std::alloc::{AllocError, Global};
use std::str::SplitWhitespace;

// A decimal number of 32 bits, without a sign.
pub fn number(word: &str) -> Result<u32, Expected>
    ensures value { OkIff result (IsNumeral 10 word.now × (digits_value 10 word.now < 2 ^ 32)) (digits_value 10 word.now) }
    ensures err { IfErr result (λ e. e ≡ Number) }
{
    if word.starts_with('+') {
        return Err(Expected::Number);
    }
    word.parse::<u32>().map_err(|_| Expected::Number)
}

// A byte as two hexadecimal digits.
pub fn byte(word: &str) -> Result<u8, Expected>
    ensures value { OkIff result ((length word.now ≡ 2) × IsNumeral 16 word.now × (digits_value 16 word.now < 2 ^ 8)) (digits_value 16 word.now) }
    ensures err { IfErr result (λ e. e ≡ Byte) }
{
    if word.len() != 2 || word.starts_with('+') {
        return Err(Expected::Byte);
    }
    u8::from_str_radix(word, 16).map_err(|_| Expected::Byte)
}

// The words with one space between them.
pub fn joined(heap: Global, line: &str) -> Result<String, AllocError> {
    let mut text = String::new(heap);
    for word in line.split_whitespace() {
        if !text.is_empty() {
            text.push(' ')?;
        }
        text.push_str(word)?;
    }
    Ok(text)
}

// The words of a line that are still to be read.
#[derive(Drop)]
pub struct Words<'a> {
    left: SplitWhitespace<'a>,
}

impl<'a> Words<'a> {
    pub fn of(line: &'a str) -> Words<'a>
        ensures { split_whitespace_rest result.left ≡ line.now }
    {
        Words {
            left: line.split_whitespace(),
        }
    }

    // The next word; a line that ends reads like an empty word.
    pub fn word(&mut self) -> &'a str
        ensures { Took self.old.left result.now self.new.left }
    {
        self.left.next().unwrap_or("")
    }

    pub fn number(&mut self) -> Result<u32, Expected>
        ensures value { (word : List ℕ) × Took self.old.left word self.new.left × OkIff result (IsNumeral 10 word × (digits_value 10 word < 2 ^ 32)) (digits_value 10 word) }
        ensures err { IfErr result (λ e. e ≡ Number) }
    {
        number(self.word())
    }

    // No word is left.
    pub fn end(&mut self) -> Result<(), Expected>
        ensures ok { OnOk result (Took self.old.left [] self.new.left) }
        ensures err { IfErr result (λ e. e ≡ End) }
        ensures more { OnErr result ((word : List ℕ) × (0 < length word) × Took self.old.left word self.new.left) }
    {
        match self.left.next() {
            None => Ok(()),
            Some(_) => Err(Expected::End),
        }
    }

    // All the words that are left, each as `read` reads it.
    pub fn all<T: Drop, F: Fn(&str) -> Result<T, Expected>>(
        &mut self,
        heap: Global,
        read: F,
    ) -> Result<Vec<T>, LineFault>
        requires { F.IsAlwaysCallable read }
    {
        self.left
            .by_ref()
            .map(|word| -> Result<T, LineFault> { Ok(read(word)?) })
            .try_collect(heap)
    }
}
