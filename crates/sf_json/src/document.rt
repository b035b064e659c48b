ghost use Rattle.std.specs.Prelude.{◌≡◌, false, option_map, string_bytes, IfOk};
ghost use Rattle.serde_json.specs.Data.{array, boolean, null, number, object, no_members, string, unsigned};
ghost use Rattle.serde_json.specs.View.{items_view, view};
ghost use Rattle.serde_json.specs.Written.{has_float, items_have_float};
ghost use Rattle.sf_json.specs.Documents.{text_at, with_field};

use serde_json::{Map, Value, put};
use std::alloc::{AllocError, Global};
use std::marker::Model;

/// A JSON value that has no float, so that contracts can say what its text is.
#[derive(Drop)]
pub struct Document {
    value: Value,
}

impl Model for Document {
    ghost use Rattle.std.specs.Prelude.{◌≡◌, false};
    ghost use Rattle.std.specs.Coded.{codes};
    ghost use Rattle.serde_json.specs.View.{view as view_of};
    ghost use Rattle.serde_json.specs.Written.{has_float};
    ghost use Rattle.serde_json.specs.contracts.value.Value as e;
    ghost use Rattle.serde_json.specs.declared.value.Value.{Value as AValue};

    ghost Value = { AValue };

    ghost view = { λ d. d.value };

    ghost coded = { Prim.hlevel (codes, e.the_row.coded) };

    ghost invariant = { λ d. has_float (view_of d.value) ≡ false };
}

impl Document {
    pub(crate) fn value(&self) -> &Value
        ensures same { view result.now ≡ view self.now }
        ensures no_float { has_float (view self.now) ≡ false }
    {
        &self.value
    }

    /// `null`.
    pub fn null() -> Document
        ensures { view result ≡ null }
    {
        Document { value: Value::Null }
    }

    /// A truth value.
    pub fn truth(truth: bool) -> Document
        ensures { view result ≡ boolean truth }
    {
        Document {
            value: Value::Bool(truth),
        }
    }

    /// A number of 32 bits.
    pub fn number(n: u32) -> Document
        ensures { view result ≡ number (unsigned n) }
    {
        Document {
            value: Value::from(n),
        }
    }

    /// A number that says how many of something there are.
    pub fn count(many: usize) -> Document
        ensures { view result ≡ number (unsigned many) }
    {
        Document {
            value: Value::from(many),
        }
    }

    /// A text, which is written between quotation marks and escaped.
    pub fn text(text: String) -> Document
        ensures { view result ≡ string (string_bytes text) }
    {
        Document {
            value: Value::String(text),
        }
    }

    /// A copy of a text, as a document.
    pub fn copy_of(alloc: Global, text: &str) -> Result<Document, AllocError>
        ensures { IfOk result (λ d. view d ≡ string text.now) }
    {
        Ok(Document::text(String::from_str(alloc, text)?))
    }

    /// A copy of this document.
    pub fn try_clone(&self) -> Result<Document, AllocError>
        ensures { IfOk result (λ d. view d ≡ view self.now) }
    {
        let value = self.value().clone()?;
        Ok(Document { value })
    }

    /// The text at a key of this object, if one stands there.
    pub fn text_at(&self, key: &str) -> Option<&str>
        ensures { option_map (λ t. t.now) result ≡ text_at key.now (view self.now) }
    {
        self.value().get(key).and_then(Value::as_str)
    }

    /// The array of these documents, in the same order.
    pub fn array(alloc: Global, documents: Vec<Document>) -> Result<Document, AllocError>
        ensures { IfOk result (λ d. view d ≡ array (items_view documents.items)) }
    {
        let values = values_of(alloc, documents)?;
        Ok(Document {
            value: Value::Array(values),
        })
    }

    /// The object with these fields.
    pub fn object(fields: Fields) -> Document
        ensures { view result ≡ view fields }
    {
        Document {
            value: Value::Object(fields.map),
        }
    }

    /// This object with one field more, in place of one that has the same key already. A document that is no object
    /// stays as it is.
    pub fn with(self, alloc: Global, key: &str, document: Document) -> Result<Document, AllocError>
        ensures { IfOk result (λ d. view d ≡ with_field key.now (view document) (view self)) }
    {
        match self.value {
            Value::Object(map) => {
                let fields = Fields { alloc, map }.with(key, document)?;
                Ok(Document::object(fields))
            }
            value => Ok(Document { value }),
        }
    }
}

/// The values of documents. For the prover: none of them has a float.
#[tactic(auto, using(crate::proofs::document::DocumentLemmas::no_float_behind))]
fn values_of(alloc: Global, documents: Vec<Document>) -> Result<Vec<Value>, AllocError>
    ensures same { IfOk result (λ vs. vs.items ≡ documents.items) }
    ensures no_float { IfOk result (λ vs. items_have_float (items_view vs.items) ≡ false) }
{
    let mut values = Vec::new(alloc);
    for document in documents {
        values.push(document.value)?;
    }
    Ok(values)
}

/// The fields of an object, which is written with them in the order of their keys.
#[derive(Drop)]
pub struct Fields {
    alloc: Global,
    /// None of the values has a float.
    map: Map<String, Value>,
}

impl Model for Fields {
    ghost use Rattle.std.specs.Prelude.{◌≡◌, false};
    ghost use Rattle.std.specs.Coded.{codes};
    ghost use Rattle.serde_json.specs.View.{members_view};
    ghost use Rattle.serde_json.specs.Written.{members_have_float};
    ghost use Rattle.serde_json.specs.contracts.value.Value as e;
    ghost use Rattle.serde_json.specs.declared.value.Value.{Value as AValue, Object};

    ghost Value = { AValue };

    ghost view = { λ f. Object f.map };

    ghost coded = { Prim.hlevel (codes, e.the_row.coded) };

    ghost invariant = { λ f. members_have_float (members_view f.map.entries) ≡ false };
}

impl Fields {
    /// No fields. Those that are added take their memory from `alloc`.
    pub fn new(alloc: Global) -> Fields
        ensures { view result ≡ object no_members }
    {
        Fields {
            alloc,
            map: Map::new(alloc),
        }
    }

    /// These fields and one more, which replaces a field that has the same key already.
    #[tactic(auto, using(crate::proofs::document::DocumentLemmas::no_float_among))]
    pub fn with(self, key: &str, document: Document) -> Result<Fields, AllocError>
        ensures { IfOk result (λ f. view f ≡ with_field key.now (view document) (view self)) }
    {
        let alloc = self.alloc;
        let mut map = self.map;
        put(&mut map, alloc, key, document.value)?;
        Ok(Fields { alloc, map })
    }
}
