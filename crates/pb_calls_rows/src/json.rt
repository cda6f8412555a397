//! Values and outcomes from JSON and as JSON, by their methods.

use pb_json::outcome::OutcomeJson;
use pb_json::val::ValJson;
use pb_outcome::outcome::Outcome;
use pb_value::read_json::read_json;
use pb_value::text::Text;
use pb_value::val::Val;
use std::test::Fail;

#[test]
fn values_by_methods(rt: HostRuntime) -> Result<(), Fail> {
    let alloc = rt.alloc();
    let text = "{\"port\":8080,\"tags\":[\"web\",null]}";
    let Ok(json) = read_json(alloc, text.as_bytes()) else {
        return Err(Fail::new("JSON"));
    };
    let Ok(value) = Val::from_json(alloc, &json) else {
        return Err(Fail::new("a value"));
    };
    assert_eq!(rt; value.to_json(alloc)?.to_string(alloc)?.as_str(), text);
    Ok(())
}

#[test]
fn outcomes_by_methods(rt: HostRuntime) -> Result<(), Fail> {
    let alloc = rt.alloc();
    let text = "{\"err\":\"\",\"out\":\"up\",\"rc\":0}";
    let Ok(json) = read_json(alloc, text.as_bytes()) else {
        return Err(Fail::new("JSON"));
    };
    let Ok(outcome) = Outcome::read(alloc, &Text::new(alloc), &json) else {
        return Err(Fail::new("an outcome"));
    };
    assert_eq!(rt; outcome.to_json(alloc)?.to_string(alloc)?.as_str(), text);
    Ok(())
}
