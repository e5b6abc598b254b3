//! The words of a line, and the texts that they are once their escapes are decoded.
ghost use Rattle.std.specs.Prelude.{◌≡◌, true, [], ◌∷◌, map, take, string_bytes, IfOk, OnOk, IfErr};
ghost use Rattle.script_text.specs.Words.{is_blank, is_full, without_return as plain_without_return, words_of as plain_words_of};
ghost use Rattle.script_text.specs.Commands.{decoded, is_text, are_texts, fits_chunk, point_of as plain_point_of};
ghost use Rattle.script_text.specs.Faults.{IsLineFault};
ghost use Rattle.script_text.specs.declared.fault.FaultKind.TheVariants as kinds;

use crate::fault::{FaultKind, LineFault};
use hs_types::{Chunk, NameText, PathText, Point};
use percent_encoding::{DecodeError, percent_decode};
use std::alloc::{AllocError, Global};

fn is_blank(byte: u8) -> bool
    ensures { result ≡ is_blank byte }
{
    matches!(byte, b' ' | b'\t')
}

fn is_full(bytes: &[u8]) -> bool
    ensures { result ≡ is_full bytes.now }
{
    !bytes.is_empty()
}

/// The line without the carriage return at its end, if there is one.
fn without_return(line: &[u8]) -> &[u8]
    ensures { result.now ≡ plain_without_return line.now }
{
    match line {
        [front @ .., b'\r'] => front,
        _ => line,
    }
}

/// As many words as tell what a line means: no command has more than five.
const MOST_WORDS: usize = 6;

/// The first six words of a line: what stands between its blanks and isn't empty.
pub(crate) fn first_words(alloc: Global, line: &[u8]) -> Result<Vec<&[u8]>, AllocError>
    ensures { IfOk result (λ found. map (λ word. word.now) found.items ≡ take 6 (plain_words_of line.now)) }
{
    without_return(line)
        .split(|byte| is_blank(*byte))
        .filter(|word| is_full(word))
        .take(MOST_WORDS)
        .collect(alloc)
}

/// The text of a word, with its escapes decoded.
fn text_of(alloc: Global, word: &[u8]) -> Result<String, LineFault>
    ensures text { IfOk result (λ text. string_bytes text ≡ decoded word.now) }
    ensures is_text { OnOk result (is_text word.now ≡ true) }
    ensures bad { IfErr result (IsLineFault kinds.Utf8 (is_text word.now)) }
{
    match percent_decode(word).decode_utf8(alloc) {
        Ok(text) => Ok(text.into_owned(alloc)?),
        Err(DecodeError::OutOfMemory) => Err(LineFault::NoMemory),
        Err(DecodeError::Utf8(_)) => Err(LineFault::Bad(FaultKind::Utf8)),
    }
}

/// The text of a word, said as a path.
pub(crate) fn path_of(alloc: Global, word: &[u8]) -> Result<PathText, LineFault>
    ensures text { IfOk result (λ path. path ≡ decoded word.now) }
    ensures is_text { OnOk result (is_text word.now ≡ true) }
    ensures bad { IfErr result (IsLineFault kinds.Utf8 (is_text word.now)) }
{
    Ok(PathText::new(text_of(alloc, word)?))
}

/// The texts of two words.
pub(crate) fn two_texts(
    alloc: Global,
    first: &[u8],
    second: &[u8],
) -> Result<(String, String), LineFault>
    ensures first { IfOk result (λ texts. string_bytes texts.0 ≡ decoded first.now) }
    ensures second { IfOk result (λ texts. string_bytes texts.1 ≡ decoded second.now) }
    ensures are_texts { OnOk result (are_texts (first.now ∷ second.now ∷ []) ≡ true) }
    ensures bad { IfErr result (IsLineFault kinds.Utf8 (are_texts (first.now ∷ second.now ∷ []))) }
{
    Ok((text_of(alloc, first)?, text_of(alloc, second)?))
}

/// The texts of three words.
pub(crate) fn three_texts(
    alloc: Global,
    first: &[u8],
    second: &[u8],
    third: &[u8],
) -> Result<(String, (String, String)), LineFault>
    ensures first { IfOk result (λ texts. string_bytes texts.0 ≡ decoded first.now) }
    ensures second { IfOk result (λ texts. string_bytes texts.1.0 ≡ decoded second.now) }
    ensures third { IfOk result (λ texts. string_bytes texts.1.1 ≡ decoded third.now) }
    ensures are_texts { OnOk result (are_texts (first.now ∷ second.now ∷ third.now ∷ []) ≡ true) }
    ensures bad { IfErr result (IsLineFault kinds.Utf8 (are_texts (first.now ∷ second.now ∷ third.now ∷ []))) }
{
    Ok((text_of(alloc, first)?, two_texts(alloc, second, third)?))
}

/// The bytes of a word, with its escapes decoded; a fault of kind Data where they are more than a chunk holds.
pub(crate) fn data_of(alloc: Global, word: &[u8]) -> Result<Chunk, LineFault>
    ensures bytes { IfOk result (λ bytes. bytes ≡ decoded word.now) }
    ensures within { OnOk result (fits_chunk word.now ≡ true) }
    ensures bad { IfErr result (IsLineFault kinds.Data (fits_chunk word.now)) }
{
    let mut bytes = Vec::new(alloc);
    percent_decode(word).append_to(&mut bytes)?;
    match Chunk::new(bytes) {
        Ok(bytes) => Ok(bytes),
        Err(_) => Err(LineFault::Bad(FaultKind::Data)),
    }
}

/// One end of a report; `.` is the current state.
pub(crate) fn point_of(text: String) -> Point
    ensures { result ≡ plain_point_of (string_bytes text) }
{
    if text.as_str() == "." {
        Point::Now
    } else {
        Point::Snapshot(NameText::new(text))
    }
}
