//! The texts that templates show for values.

use pb_value::text::Text;
use pb_value::val::Val;
use std::test::Fail;

#[test]
fn values_behind_a_text(rt: HostRuntime) -> Result<(), Fail> {
    let alloc = rt.alloc();
    let mut shown = String::from_str(alloc, "port ")?;
    Val::int(8080).show(alloc, &mut shown)?;
    Val::text(Text::from_str(alloc, " open: ")?).show(alloc, &mut shown)?;
    Val::boolean(true).show(alloc, &mut shown)?;
    Val::null().show(alloc, &mut shown)?;
    assert_eq!(rt; shown.as_str(), "port 8080 open: True");
    Ok(())
}
