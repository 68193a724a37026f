ghost use Rattle.spm_json.specs.Sequence.{limited_items_of};

use serde_json::Value;
use spm_json::{FromJson, ReadFault, limited_items};
use spm_version::Items;
use std::alloc::Global;
use std::marker::Model;

/// A list of at most `LIMIT` items. Contracts see it as the list.
#[derive(Drop)]
pub struct Limited<T, const LIMIT: usize> {
    pub items: Items<T>,
}

impl<T, const LIMIT: usize> Model for Limited<T, LIMIT> {
    ghost use Rattle.std.specs.Prelude.{List};
    ghost use Rattle.std.specs.Coded.{coded_list};

    ghost Value = { List T };

    ghost coded = { coded_list T.code };

    ghost view = { λ limited. limited.items };
}

impl<T: FromJson + Drop, const LIMIT: usize> FromJson for Limited<T, LIMIT> {
    ghost reading = { limited_items_of T.reading LIMIT };

    fn from_json(alloc: Global, value: &Value) -> Result<Limited<T, LIMIT>, ReadFault> {
        let items = limited_items(alloc, value, LIMIT)?;
        Ok(Limited { items })
    }
}
