ghost use Rattle.std.specs.Prelude.{◌≡◌, ◌<◌, map, length, IfOk, IfSome};
ghost use Rattle.name_table.specs.Names.{place_of, AreDifferent};
ghost use Rattle.ll_item_rules.specs.Widths.{width_of};

use ll_items::Values;
use name_table::NameTable;
use std::alloc::Global;
use std::marker::Model;
use wx_base::NoMemory;

/// Values, found by their names: a value's place is its number.
#[derive(Drop)]
pub struct ValueTable<'a> {
    values: Values<'a>,
    numbers: NameTable<'a>,
    ghost same: { numbers ≡ map (λ value. value.0) values },
}

impl<'a> Model for ValueTable<'a> {
    ghost use Rattle.std.specs.Prelude.{List, ℕ};

    ghost Value = { List (List ℕ × ℕ) };

    ghost view = { λ table. table.values };
}

impl<'a> ValueTable<'a> {
    /// The table of values with different names.
    pub fn new(alloc: Global, values: Values<'a>) -> Result<ValueTable<'a>, NoMemory>
        requires { AreDifferent (map (λ value. value.0) values) }
        ensures { IfOk result (λ table. table ≡ values.entry) }
    {
        let numbers = numbers_of(alloc, &values)?;
        Ok(ValueTable { values, numbers })
    }

    /// The number of the value with this name.
    pub fn number(&self, name: &[u8]) -> Option<usize>
        ensures number { result ≡ place_of name.now (map (λ value. value.0) self.now) }
        ensures within { IfSome result (λ number. number < length self.now) }
    {
        self.numbers.find(name)
    }

    /// The width of the value with this name.
    pub fn width(&self, name: &[u8]) -> Option<u32>
        ensures { result ≡ width_of name.now self.now }
    {
        match self.numbers.find(name) {
            Some(number) => Some(self.values.items()[number].width),
            None => None,
        }
    }

    /// How many values there are.
    pub fn len(&self) -> usize
        ensures { result ≡ length self.now }
    {
        self.values.items().len()
    }
}

fn numbers_of<'a>(alloc: Global, values: &Values<'a>) -> Result<NameTable<'a>, NoMemory>
    requires { AreDifferent (map (λ value. value.0) values.now) }
    ensures { IfOk result (λ numbers. numbers ≡ map (λ value. value.0) values.now) }
{
    let mut numbers = NameTable::new(alloc);
    let items = values.items();
    for value in items {
        numbers.add(value.name)?;
    }
    Ok(numbers)
}
