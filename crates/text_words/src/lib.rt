//! Texts that people write for the program: their lines, the words of a line, and numbers.
//!
//! Every text is judged line by line, from its first line on, and the first faulty line is
//! reported. One theorem serves every such reader: [`lines::numbered_lines`] gives exactly the
//! lines that a text has, in order and each with its number, so what a reader makes of them one
//! after another is `read_lines` over `lines_of` of the text.
//!
//! A line's words are what is between its blanks: one blank ([`words::cut_word`]), or any number of
//! blanks ([`words::next_word`], [`words::words_of`]). A number is what all the digits of a word
//! spell, or the word is none ([`numbers`]).
//!
//! ```
//! use text_words::lines::numbered_lines;
//! use text_words::numbers::decimal_of;
//! use text_words::words::cut_word;
//!
//! let line = numbered_lines(b"RUN ALPHA 12\n").next().ok_or("no line")?;
//! assert_eq!(rt; line.number, 1);
//! assert_eq!(rt; cut_word(line.text), (b"RUN".as_slice(), Some(b"ALPHA 12".as_slice())));
//! assert_eq!(rt; decimal_of(7, b"12"), Some(12));
//! assert_eq!(rt; decimal_of(7, b"12K"), None);
//! ```
#![tactic(auto)]

pub mod lines;
pub mod numbers;
pub mod words;
