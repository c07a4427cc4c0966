// A slot holds a record, or is vacant and names the next vacant slot.
#[derive(Clone, Copy)]
pub enum ItemSlot<T> {
    Occupied(T),
    Vacant(u32),
}
