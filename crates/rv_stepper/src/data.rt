// The data of a unit, and the memory of a run.
ghost use Rattle.std.specs.Prelude.{◌≡◌, ℕ, ◌++◌, ◌<◌, ◌≤◌, ◌^◌, length, replicate, OnOk, IfOk};
ghost use Rattle.std.specs.List.{flat_map};
ghost use Rattle.rv_code.specs.Sizes.{item_size, data_size};
ghost use Rattle.rv_code.specs.Loading.{item_bytes};
ghost use Rattle.rv_stepper.specs.Space.{IsSpace};

use crate::memory::Memory;
use cp_base::Layout;
use rv_code::DataItem;
use std::alloc::{AllocError, Global};

/// The size of the data in bytes.
pub fn data_size(items: &[DataItem]) -> u128
    ensures { result ≡ data_size items.now }
{
    let mut size: u128 = 0;
    for item in items {
        size += u128::from(item_size(item));
    }
    size
}

fn item_size(item: &DataItem) -> u32
    ensures { result ≡ item_size item.now }
{
    match item {
        DataItem::Zero(count) => *count,
        DataItem::Byte(_) => 1,
        DataItem::Address(_) => 4,
    }
}

/// The memory at the start: the data, whose size is given, and a stack of zeros.
pub fn load_memory(
    alloc: Global,
    items: &[DataItem],
    layout: Layout,
    size: u32,
) -> Result<Memory, AllocError>
    requires size { size ≡ data_size items.now }
    requires space { IsSpace layout size }
    ensures { IfOk result (λ memory. memory ≡ record { layout = layout; size = size; bytes = flat_map (item_bytes layout.cdata) items.now ++ replicate layout.stack 0 }) }
{
    let mut bytes = Vec::new(alloc);
    put_items(&mut bytes, layout.cdata, items)?;
    put_zeros(&mut bytes, layout.stack)?;
    Ok(Memory::new(bytes, layout, u64::from(size)))
}

fn put_items(bytes: &mut Vec<u8>, cdata: u32, items: &[DataItem]) -> Result<(), AllocError>
    ensures { OnOk result (bytes.new.items ≡ bytes.old.items ++ flat_map (item_bytes cdata) items.now) }
{
    for item in items {
        put_item(bytes, cdata, item)?;
    }
    Ok(())
}

fn put_item(bytes: &mut Vec<u8>, cdata: u32, item: &DataItem) -> Result<(), AllocError>
    ensures { OnOk result (bytes.new.items ≡ bytes.old.items ++ item_bytes cdata item.now) }
{
    match item {
        DataItem::Zero(count) => put_zeros(bytes, *count),
        DataItem::Byte(value) => bytes.extend_from_slice(&[*value]),
        DataItem::Address(offset) => {
            bytes.extend_from_slice(&cdata.wrapping_add(*offset).to_le_bytes())
        }
    }
}

fn put_zeros(bytes: &mut Vec<u8>, count: u32) -> Result<(), AllocError>
    ensures { OnOk result (bytes.new.items ≡ bytes.old.items ++ replicate count 0) }
{
    bytes.resize(bytes.len() + count as usize, 0)
}
