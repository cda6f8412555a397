ghost use Rattle.std.specs.Prelude.{◌≡◌, Some, IfSome, IfOk};
ghost use Rattle.std.specs.Arc.{arc_value};
ghost use Rattle.std.specs.Option.{option_copied};
ghost use Rattle.pb_value.specs.Datum.{text};
ghost use Rattle.pb_template.specs.Computed.{template_of};
ghost use Rattle.pb_prepared.specs.Parts.{parts_of};

use pb_template::plain::is_plain;
use pb_template::template::Template;
use pb_value::text::Text;
use pb_value::val::{Node, Val};
use std::alloc::{AllocError, Global};
use std::marker::Model;
use std::sync::Arc;

/// The template that a text is. There is none where it isn't a template, or where memory is refused for it.
fn parsed(alloc: Global, text: &str) -> Option<Arc<Template>>
    ensures { IfSome result (λ t. template_of text.now ≡ Some (arc_value t).parts) }
{
    let Ok(template) = Template::parse(alloc, text) else {
        return None;
    };
    match Arc::new(alloc, template) {
        Ok(template) => Some(template),
        Err(_) => None,
    }
}

/// The template that a value is, where it doesn't stand for itself.
fn parsed_value(alloc: Global, value: &Val) -> Option<Arc<Template>>
    ensures { IfSome result (λ t. parts_of value.now ≡ Some (arc_value t).parts) }
{
    let Node::Text(text) = &value.node else {
        return None;
    };
    if is_plain(value) {
        return None;
    }
    parsed(alloc, text.as_str())
}

/// A value as it is written, with its template where it is a text that has one, which its copies share. Contracts see it as the value.
pub struct Prepared {
    value: Val,
    template: Option<Arc<Template>>,
}

impl Drop for Prepared {
    fn drop(self) {
        let Prepared { value, template } = self;
        drop(value);
        drop(template);
    }
}

impl Model for Prepared {
    ghost use Rattle.std.specs.Prelude.{◌≡◌, Some, IfSome};
    ghost use Rattle.std.specs.Arc.{arc_value};
    ghost use Rattle.pb_value.specs.Datum.{Datum};
    ghost use Rattle.pb_value.specs.contracts.val.Val as val;
    ghost use Rattle.pb_prepared.specs.Parts.{parts_of};

    ghost Value = { Datum };

    ghost coded = { val.the_row.coded };

    ghost view = { λ p. p.value };

    ghost invariant = { λ p. IfSome p.template (λ t. parts_of p.value ≡ Some (arc_value t).parts) };
}

impl Prepared {
    /// This value. Where it is a text its template is parsed here, so that nobody who renders it parses it again. The texts in a list or a dict are
    /// parsed when they are rendered, and so is a text for whose template memory is refused here.
    pub fn of(alloc: Global, value: Val) -> Prepared
        ensures { result ≡ value }
    {
        let template = parsed_value(alloc, &value);
        Prepared { value, template }
    }

    /// The value.
    pub fn value(&self) -> &Val
        ensures { result.now ≡ self.now }
    {
        &self.value
    }

    /// The template that it is, where it was parsed.
    pub fn template(&self) -> Option<&Template>
        ensures { IfSome (option_copied result) (λ t. parts_of self.now ≡ Some t.parts) }
    {
        match &self.template {
            Some(template) => Some(template.as_ref()),
            None => None,
        }
    }

    /// A copy of the value, which shares the template.
    pub fn try_clone(&self, alloc: Global) -> Result<Prepared, AllocError>
        ensures { IfOk result (λ copy. copy ≡ self.now) }
    {
        let value = self.value.try_clone(alloc)?;
        match &self.template {
            Some(template) => {
                let template = Some(template.clone()?);
                Ok(Prepared { value, template })
            }
            None => Ok(Prepared {
                value,
                template: None,
            }),
        }
    }
}

/// A text as it is written, with its template. Contracts see it as the text.
pub struct PreparedText {
    prepared: Prepared,
}

impl Drop for PreparedText {
    fn drop(self) {
        let PreparedText { prepared } = self;
        drop(prepared);
    }
}

impl Model for PreparedText {
    ghost use Rattle.std.specs.Prelude.{ℕ, ◌≡◌, List};
    ghost use Rattle.pb_value.specs.Datum.{text};
    ghost use Rattle.pb_prepared.specs.Parts.{text_in};

    ghost Value = { List ℕ };

    ghost view = { λ p. text_in p.prepared };

    ghost invariant = { λ p. p.prepared ≡ text (text_in p.prepared) };
}

impl PreparedText {
    /// This text.
    pub fn of(alloc: Global, text: Text) -> PreparedText
        ensures { result ≡ text }
    {
        let prepared = Prepared::of(alloc, Val::text(text));
        PreparedText { prepared }
    }

    /// The text.
    pub fn as_str(&self) -> &str
        ensures { result.now ≡ self.now }
    {
        let value = self.prepared.value();
        match &value.node {
            Node::Text(text) => text.as_str(),
            _ => "",
        }
    }

    /// The text as a value, with its template.
    pub fn prepared(&self) -> &Prepared
        ensures { result.now ≡ text self.now }
    {
        &self.prepared
    }

    /// A copy of the text, which shares the template.
    pub fn try_clone(&self, alloc: Global) -> Result<PreparedText, AllocError>
        ensures { IfOk result (λ copy. copy ≡ self.now) }
    {
        Ok(PreparedText {
            prepared: self.prepared.try_clone(alloc)?,
        })
    }
}
