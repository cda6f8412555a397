use pb_planes::HostSet;
use pb_value::items::Items;
use pb_value::text::Text;

/// What a pattern selects in an inventory.
#[derive(Drop)]
pub struct Selected {
    /// The hosts that it means.
    pub hosts: HostSet,
    /// The texts of the elements that mean no host, trimmed and with their marks, in their order.
    pub unmatched: Items<Text>,
}
