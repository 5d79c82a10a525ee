//! A text of an explanation as a list of parts, of which it is made: words, names of variables,
//! their values, other numbers and places. Who knows better names puts them in.

use crate::excerpt::shown_text;
use std::alloc::{AllocError, Global};
use std::fmt::Display;

/// What a part of a text is.
#[derive(Clone, Copy, PartialEq, Eq)]
pub enum PartKind {
    Words,
    /// The name of a variable, or of an element of an array.
    Variable,
    /// A value of a variable, or one to which its values are compared.
    Value,
    /// Any other number: an index, a count, a sum.
    Number,
    /// A place in the model's text.
    Place,
}

impl PartKind {
    /// What it is called.
    pub fn name(self) -> &'static str {
        match self {
            PartKind::Words => "words",
            PartKind::Variable => "variable",
            PartKind::Value => "value",
            PartKind::Number => "number",
            PartKind::Place => "place",
        }
    }
}

/// A part of a text.
#[derive(Drop)]
pub struct Part {
    pub kind: PartKind,
    pub text: String,
    /// Of a variable and of a value the name in the FlatZinc: the variable's, or an array's.
    pub variable: Option<String>,
    /// Where that is an array's, the number of the element, from 1.
    pub element: Option<usize>,
}

impl Part {
    fn copy(&self, alloc: Global) -> Result<Part, AllocError> {
        Ok(Part {
            kind: self.kind,
            text: String::from_str(alloc, &self.text)?,
            variable: match &self.variable {
                Some(variable) => Some(String::from_str(alloc, variable)?),
                None => None,
            },
            element: self.element,
        })
    }
}

/// Whose a name or a value is: a variable's, or an element's of an array.
#[derive(Clone, Copy)]
pub(crate) struct Owner<'m> {
    pub name: &'m [u8],
    pub element: Option<usize>,
}

impl<'m> Owner<'m> {
    /// The variable, or the array, of this name in the FlatZinc.
    pub(crate) fn of(name: &'m [u8]) -> Owner<'m> {
        Owner {
            name,
            element: None,
        }
    }

    /// The element of an array at a place, from 0.
    pub(crate) fn at(name: &'m [u8], place: usize) -> Owner<'m> {
        Owner {
            name,
            element: Some(place.saturating_add(1)),
        }
    }
}

/// A text as the list of its parts.
#[derive(Drop)]
pub struct Phrase {
    pub parts: Vec<Part>,
}

impl Phrase {
    /// Without any part.
    pub(crate) fn new(alloc: Global) -> Phrase {
        Phrase {
            parts: Vec::new(alloc),
        }
    }

    /// Of words alone.
    ///
    /// # Errors
    ///
    /// Out of memory.
    pub fn of_words(alloc: Global, words: &str) -> Result<Phrase, AllocError> {
        let mut phrase = Phrase::new(alloc);
        phrase.words(words)?;
        Ok(phrase)
    }

    pub(crate) fn is_empty(&self) -> bool {
        self.parts.is_empty()
    }

    fn alloc(&self) -> Global {
        *self.parts.allocator()
    }

    /// Adds words, to the last part where that is of words.
    pub(crate) fn words(&mut self, words: &str) -> Result<(), AllocError> {
        if words.is_empty() {
            return Ok(());
        }
        if let Some(last) = self.parts.last_mut()
            && last.kind == PartKind::Words
        {
            return last.text.push_str(words);
        }
        let text = String::from_str(self.alloc(), words)?;
        self.add(PartKind::Words, text, None)
    }

    /// Adds bytes as they are shown, as words.
    pub(crate) fn shown(&mut self, bytes: &[u8]) -> Result<(), AllocError> {
        let text = shown_text(self.alloc(), bytes)?;
        self.words(&text)
    }

    /// Adds a number that is no variable's value.
    pub(crate) fn number<N: Display + Drop>(&mut self, number: N) -> Result<(), AllocError> {
        let text = String::format(self.alloc(), number)?;
        self.add(PartKind::Number, text, None)
    }

    /// Adds a line of the model's text.
    pub(crate) fn line(&mut self, line: usize) -> Result<(), AllocError> {
        let text = format!(in self.alloc(); "line {line}")?;
        self.add(PartKind::Place, text, None)
    }

    /// Adds a name.
    pub(crate) fn variable(&mut self, owner: Owner<'_>, name: &str) -> Result<(), AllocError> {
        let text = String::from_str(self.alloc(), name)?;
        self.add(PartKind::Variable, text, Some(owner))
    }

    /// Adds a number that is a value, where it is someone's.
    pub(crate) fn value<N: Display + Drop>(
        &mut self,
        owner: Option<Owner<'_>>,
        number: N,
    ) -> Result<(), AllocError> {
        if owner.is_none() {
            return self.number(number);
        }
        let text = String::format(self.alloc(), number)?;
        self.add(PartKind::Value, text, owner)
    }

    /// Adds a Boolean.
    pub(crate) fn truth(
        &mut self,
        owner: Option<Owner<'_>>,
        truth: bool,
    ) -> Result<(), AllocError> {
        let word = if truth { "true" } else { "false" };
        if owner.is_none() {
            return self.words(word);
        }
        let text = String::from_str(self.alloc(), word)?;
        self.add(PartKind::Value, text, owner)
    }

    fn add(
        &mut self,
        kind: PartKind,
        text: String,
        owner: Option<Owner<'_>>,
    ) -> Result<(), AllocError> {
        let (variable, element) = match owner {
            Some(Owner { name, element }) => (Some(shown_text(self.alloc(), name)?), element),
            None => (None, None),
        };
        let part = Part {
            kind,
            text,
            variable,
            element,
        };
        Ok(self.parts.push(part)?)
    }

    /// Adds the parts of another text.
    pub(crate) fn append(&mut self, other: &Phrase) -> Result<(), AllocError> {
        for part in &other.parts {
            if part.kind == PartKind::Words {
                self.words(&part.text)?;
            } else {
                let copy = part.copy(self.alloc())?;
                self.parts.push(copy)?;
            }
        }
        Ok(())
    }

    /// Adds the text to another one.
    pub(crate) fn push_to(&self, text: &mut String) -> Result<(), AllocError> {
        for part in &self.parts {
            text.push_str(&part.text)?;
        }
        Ok(())
    }

    /// The text.
    ///
    /// # Errors
    ///
    /// Out of memory.
    pub fn text(&self, alloc: Global) -> Result<String, AllocError> {
        let mut text = String::new(alloc);
        self.push_to(&mut text)?;
        Ok(text)
    }
}

/// Adds texts as lines, with these at the front of each.
pub(crate) fn push_phrases(
    text: &mut String,
    front: &str,
    blanks: &str,
    phrases: &[Phrase],
) -> Result<(), AllocError> {
    for phrase in phrases {
        text.push_str(front)?;
        text.push_str(blanks)?;
        phrase.push_to(text)?;
        text.push_str("\n")?;
    }
    Ok(())
}
