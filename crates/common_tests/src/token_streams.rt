//! Tokens that are read one after another, and what has a length.

use common::{
    Analyzer, BufferedStream, HasLen, PreTokenizedStream, PreTokenizedString, RawAndDefault, Token,
    TokenBuffer, TokenStream,
};
use definitions::Fault;
use std::alloc::{AllocError, Global};
use std::test::Fail;

/// The texts of a stream, one after another with their positions.
fn spell<S: TokenStream>(alloc: Global, stream: &mut S) -> Result<String, AllocError> {
    let mut spelled = String::new(alloc);
    for _ in 0..10 {
        if !stream.advance() {
            return Ok(spelled);
        }
        let token = stream.token();
        write!(spelled, "{} {}, ", token.position, token.text)?;
    }
    Ok(spelled)
}

/// Whether the tokens of an analyzer are read to their end, and no token where there is none.
fn analyzed_tokens_are_read(alloc: Global) -> Result<bool, Fault> {
    let tokens = RawAndDefault.tokens(alloc, "default", "The Old-Sea 42 éa")?;
    let mut stream = PreTokenizedStream::new(&tokens);
    let spelled = spell(alloc, &mut stream)?;
    let nothing = spell(alloc, &mut PreTokenizedStream::new(&[]))?;
    Ok(
        spelled.as_str() == "0 the, 1 old, 2 sea, 3 42, 4 éa, "
            && !stream.advance()
            && nothing.is_empty(),
    )
}

#[test]
fn tokens_of_an_analyzer(rt: HostRuntime) -> Result<(), Fail> {
    assert!(rt; analyzed_tokens_are_read(rt.alloc())?);
    Ok(())
}

/// A text with the tokens that it came with.
fn text_with_tokens(alloc: Global) -> Result<PreTokenizedString, Fault> {
    let mut tokens = Vec::new(alloc);
    for (position, text) in [(3, "sea"), (3, "ocean"), (7, "wind")] {
        tokens.push(Token {
            position,
            position_length: 2,
            text: String::from_str(alloc, text)?,
        })?;
    }
    PreTokenizedString::new(String::from_str(alloc, "the sea")?, tokens)
}

/// Whether the tokens that a text came with are read.
fn given_tokens_are_read(alloc: Global) -> Result<bool, Fault> {
    let text = text_with_tokens(alloc)?;
    let mut stream = PreTokenizedStream::new(text.tokens());
    Ok(spell(alloc, &mut stream)?.as_str() == "3 sea, 3 ocean, 7 wind, ")
}

#[test]
fn tokens_that_a_text_came_with(rt: HostRuntime) -> Result<(), Fail> {
    assert!(rt; given_tokens_are_read(rt.alloc())?);
    Ok(())
}

/// What a stream over a buffer reads, after the buffer took the text's tokens in place of its own.
fn spell_buffered(
    alloc: Global,
    name: &str,
    text: &str,
    buffer: &mut TokenBuffer,
) -> Result<String, AllocError> {
    RawAndDefault.tokens_into(alloc, name, text, buffer)?;
    spell(alloc, &mut BufferedStream::new(buffer))
}

/// Whether a buffer holds the tokens of the text that it took last.
fn buffered_tokens_are_read(alloc: Global) -> Result<bool, AllocError> {
    let mut buffer = TokenBuffer::new(alloc);
    let words = spell_buffered(alloc, "default", "The Old-Sea 42 éa", &mut buffer)?;
    let whole = spell_buffered(alloc, "raw", "The Sea", &mut buffer)?;
    let none = spell_buffered(alloc, "other", "The Sea", &mut buffer)?;
    Ok(
        words.as_str() == "0 the, 1 old, 2 sea, 3 42, 4 éa, "
            && whole.as_str() == "0 The Sea, "
            && none.is_empty(),
    )
}

#[test]
fn tokens_of_a_buffer(rt: HostRuntime) -> Result<(), Fail> {
    assert!(rt; buffered_tokens_are_read(rt.alloc())?);
    Ok(())
}

/// An analyzer that fills a buffer from the tokens that it makes.
struct Plain;

impl Analyzer for Plain {
    ghost use Rattle.definitions.proofs.TokenTexts.{raw_and_default_analyzes};
    ghost use Rattle.definitions.specs.Analyzers.{is_raw_or_default, raw_and_default};

    ghost knows_name = { λ _. is_raw_or_default };

    ghost analyze = { λ _. raw_and_default };

    ghost is_analyzer = { λ _. raw_and_default_analyzes };

    fn knows(&self, name: &str) -> bool {
        RawAndDefault.knows(name)
    }

    fn tokens(&self, alloc: Global, name: &str, text: &str) -> Result<Vec<Token>, AllocError> {
        RawAndDefault.tokens(alloc, name, text)
    }
}

/// Whether a buffer takes tokens that were made before.
fn copied_tokens_are_read(alloc: Global) -> Result<bool, AllocError> {
    let mut buffer = TokenBuffer::new(alloc);
    Plain.tokens_into(alloc, "default", "The Sea", &mut buffer)?;
    Ok(
        spell(alloc, &mut BufferedStream::new(&buffer))?.as_str() == "0 the, 1 sea, "
            && buffer.len() == 2,
    )
}

#[test]
fn tokens_that_are_copied(rt: HostRuntime) -> Result<(), Fail> {
    assert!(rt; copied_tokens_are_read(rt.alloc())?);
    Ok(())
}

/// A number of elements.
#[derive(Drop)]
struct Elements(usize);

impl HasLen for Elements {
    ghost count = { λ e. e.0 };

    fn len(&self) -> usize {
        self.0
    }
}

fn length_of<L: HasLen>(elements: &L) -> (usize, bool) {
    (elements.len(), elements.is_empty())
}

/// Whether lengths are told, and whether they are 0.
fn lengths_are_told() -> bool {
    length_of(&Elements(0)) == (0, true)
        && length_of(&Elements(1)) == (1, false)
        && length_of(&Elements(usize::MAX)) == (usize::MAX, false)
}

#[test]
fn what_has_a_length(rt: HostRuntime) {
    assert!(rt; lengths_are_told());
}
