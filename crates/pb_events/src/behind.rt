//! How lines of what a task showed end.

ghost use Rattle.std.specs.Prelude.{◌≡◌, ◌++◌, ◌∷◌, [], ℕ, List, codes, pos, IfOk};
ghost use Rattle.json.specs.Token.{begin_object};
ghost use Rattle.pb_value.specs.Datum.{Datum, text, int};
ghost use Rattle.pb_events.specs.Line.{line};
ghost use Rattle.pb_events.specs.Members.{tokens_in};

use crate::line::{end, put_number, put_text, put_value};
use crate::site::Site;
use json::Writer;
use pb_value::val::Val;
use std::alloc::AllocError;

/// Ends a line, behind the members that were put, with the place, the play, and what the task showed.
pub fn end_shown(mut out: Writer, site: &Site, shown: &Val) -> Result<Vec<u8>, AllocError>
    ensures { IfOk result (λ bytes. (members : List (List ℕ × Datum)) → out.tokens ≡ begin_object ∷ tokens_in members
        → bytes.items ≡ out.before ++ line (members ++ (codes "place", text site.now.path) ∷ (codes "play", int (pos site.now.number)) ∷ (codes "result", shown.now) ∷ [])) }
{
    put_text(&mut out, "place", site.path.as_str())?;
    put_number(&mut out, "play", site.number)?;
    put_value(&mut out, "result", shown)?;
    end(out)
}
