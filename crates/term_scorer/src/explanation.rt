//! Explanations of scores.

ghost use Rattle.std.specs.Prelude.{◌*◌, ◌+◌, ◌≡◌, ◌≤◌, IfOk, string_bytes};
ghost use Rattle.serde_json.specs.Data.{Data, depth, items_depth};
ghost use Rattle.serde_json.specs.Written.{IsInOrder};
ghost use Rattle.serde_json.specs.View.{items_view, view};

use crate::disposal::let_go;
use common::Score;
use serde_json::{Value, json};
use std::alloc::{AllocError, Global};
use std::mem;

/// How many levels of explanations are printed, each an object in a list: readers of JSON that refuse what nests 128
/// deep read it. `..` stands for what those of the last level follow from.
const MAX_LEVELS: usize = 63;

/// An explanation of a score: the value, its description, and the explanations that it follows from. It is let go
/// explanation by explanation, by calls that don't nest, so it isn't taken apart by a pattern.
pub struct Explanation {
    value: Score,
    description: String,
    details: Vec<Explanation>,
    context: Vec<String>,
}

impl Drop for Explanation {
    fn drop(self) {
        let_go(self);
    }
}

impl Explanation {
    ghost use Rattle.term_scorer.specs.Explaining.{explained_value};
    ghost use Rattle.term_scorer.specs.ExplanationNodes.{counted, counts};

    /// Returns an explanation of `value`, described by `description`.
    pub fn new(alloc: Global, description: &str, value: Score) -> Result<Explanation, AllocError>
        ensures { IfOk result (λ explanation. explained_value explanation ≡ value) }
    {
        let description = description.to_string(alloc)?;
        Ok(Explanation::new_with_string(alloc, description, value))
    }

    /// Like `new`, but keeps `description` itself, without a copy.
    pub fn new_with_string(alloc: Global, description: String, value: Score) -> Explanation
        ensures { explained_value result ≡ value }
    {
        Explanation {
            value,
            description,
            details: Vec::new(alloc),
            context: Vec::new(alloc),
        }
    }

    /// Returns the value that is explained.
    pub fn value(&self) -> Score
        ensures { result ≡ explained_value self.now }
    {
        self.value
    }

    /// Appends `child_explanation` to what the value follows from.
    pub fn add_detail(&mut self, child_explanation: Explanation) -> Result<(), AllocError>
        ensures { explained_value self.new ≡ explained_value self.old }
    {
        self.details.push(child_explanation)?;
        Ok(())
    }

    /// Appends `value`, described by `name`, to what this value follows from.
    pub fn add_const(&mut self, alloc: Global, name: &str, value: Score) -> Result<(), AllocError>
        ensures { explained_value self.new ≡ explained_value self.old }
    {
        self.add_detail(Explanation::new(alloc, name, value)?)
    }

    /// Appends each value of `consts`, described by its name, to what this value follows from.
    pub(crate) fn add_consts(
        &mut self,
        alloc: Global,
        consts: &[(&str, Score)],
    ) -> Result<(), AllocError>
        ensures { explained_value self.new ≡ explained_value self.old }
    {
        for i in 0..consts.len() {
            let (name, value) = consts[i];
            self.add_const(alloc, name, value)?;
        }
        Ok(())
    }

    /// Appends `context`, a text about where the value is used.
    pub fn add_context(&mut self, context: String) -> Result<(), AllocError>
        ensures { explained_value self.new ≡ explained_value self.old }
    {
        self.context.push(context)?;
        Ok(())
    }

    /// Returns what the value follows from, and lets go what else the explanation holds.
    pub(crate) fn into_details(self) -> Vec<Explanation>
        ensures { counted result.items ≡ counts self }
    {
        let Explanation {
            value: _,
            description: _,
            details,
            context: _,
        } = self;
        details
    }

    /// Sets what the value follows from, and returns what it followed from.
    pub(crate) fn replace_details(&mut self, details: Vec<Explanation>) -> Vec<Explanation>
        ensures before { counted result.items ≡ counts self.old }
        ensures after { counts self.new ≡ counted details.items }
    {
        mem::replace(&mut self.details, details)
    }

    /// Encodes the explanation as indented JSON, down to 63 levels of explanations: `..` stands for what those of the
    /// last level follow from. Its calls nest no deeper.
    pub fn to_pretty_json(&self, alloc: Global) -> Result<String, AllocError>
        ensures { IfOk result (λ text. (d : Data) × IsInOrder (string_bytes text) d × (depth d ≤ 126)) }
    {
        self.to_json_value(alloc, MAX_LEVELS - 1)?
            .to_string_pretty(alloc)
    }

    /// Converts the explanation to JSON, with no more than `levels` levels of details.
    #[cycle(explained)]
    fn to_json_value(&self, alloc: Global, levels: usize) -> Result<Value, AllocError>
        ensures { IfOk result (λ value. depth (view value) ≤ 2 + 2 * levels) }
    {
        json!(in alloc; {
            "value": self.value,
            "description": self.description.as_str(),
            "details": self.details_to_json(alloc, levels)?,
            "context": self.context_to_json(alloc)?
        })
    }

    /// Converts what the value follows from to JSON, with no more than `levels` levels of it.
    #[cycle(explained)]
    fn details_to_json(&self, alloc: Global, levels: usize) -> Result<Vec<Value>, AllocError>
        ensures { IfOk result (λ details. items_depth (items_view details.items) ≤ 2 * levels) }
    {
        let mut details = Vec::new(alloc);
        if levels == 0 && !self.details.is_empty() {
            details.push(Value::String("..".to_string(alloc)?))?;
            return Ok(details);
        }
        for detail in &self.details {
            details.push(detail.to_json_value(alloc, levels - 1)?)?;
        }
        Ok(details)
    }

    /// Converts the texts about where the value is used to JSON.
    fn context_to_json(&self, alloc: Global) -> Result<Vec<Value>, AllocError>
        ensures { IfOk result (λ texts. items_depth (items_view texts.items) ≡ 0) }
    {
        let mut texts = Vec::new(alloc);
        for text in &self.context {
            texts.push(Value::String(text.clone()?))?;
        }
        Ok(texts)
    }
}
