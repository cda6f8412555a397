pub use pb_outcome::item::Planned;
