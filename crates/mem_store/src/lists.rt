//! What is put behind a list.
ghost use Rattle.std.specs.Prelude.{◌≡◌, ◌+◌, ◌-◌, ◌≤◌, ◌<◌, ◌∷◌, [], ◌++◌, min, take, drop, length, OnOk, OnErr, vec_len, vec_capacity};

use ftn_addr::NoMemory;

/// Puts an item behind the others.
pub fn add<T: Drop>(item: T, list: &mut Vec<T>) -> Result<(), NoMemory>
    ensures ok { OnOk result (list.new.items ≡ list.old.items ++ item ∷ []) }
    ensures err { OnErr result (list.new.items ≡ list.old.items) }
    ensures len { OnOk result (vec_len list.new ≡ vec_len list.old + 1) }
    ensures err_len { OnErr result (vec_len list.new ≡ vec_len list.old) }
    ensures capacity { vec_capacity list.old ≤ vec_capacity list.new }
{
    list.push(item)?;
    Ok(())
}

/// Makes room for so many items more.
pub fn make_room<T: Drop>(n: usize, list: &mut Vec<T>) -> Result<(), NoMemory>
    ensures items { list.new.items ≡ list.old.items }
    ensures len { vec_len list.new ≡ vec_len list.old }
    ensures ok { OnOk result (vec_len list.new + n ≤ vec_capacity list.new) }
    ensures capacity { vec_capacity list.old ≤ vec_capacity list.new }
{
    list.reserve(n)?;
    Ok(())
}

/// Puts an item behind the others, where there is room for it. It takes no memory.
pub fn put<T: Drop>(item: T, list: &mut Vec<T>)
    requires { vec_len list.old < vec_capacity list.old }
    ensures items { list.new.items ≡ list.old.items ++ item ∷ [] }
    ensures len { vec_len list.new ≡ vec_len list.old + 1 }
    ensures capacity { vec_capacity list.old ≤ vec_capacity list.new }
{
    match list.push(item) {
        Ok(()) => (),
        Err(_) => unreachable!(),
    }
}

/// Puts all items of the other list behind these, where there is room for them. It takes no memory.
pub fn put_all<T>(items: &mut Vec<T>, list: &mut Vec<T>)
    requires { vec_len list.old + vec_len items.old ≤ vec_capacity list.old }
    ensures items { list.new.items ≡ list.old.items ++ items.old.items }
    ensures len { vec_len list.new ≡ vec_len list.old + vec_len items.old }
    ensures capacity { vec_capacity list.old ≤ vec_capacity list.new }
{
    match list.append(items) {
        Ok(()) => (),
        Err(_) => unreachable!(),
    }
}

/// Copies bytes from a place on, as many as fit, and answers how many.
pub fn copy_from(bytes: &[u8], at: u64, out: &mut [u8]) -> usize
    ensures count { result ≡ min (length out.old) (length bytes.now - at) }
    ensures section { take result out.new ≡ take (length out.old) (drop at bytes.now) }
{
    let start = bytes.len().min(at as usize);
    let rest = &bytes[start..];
    let count = out.len().min(rest.len());
    out[..count].copy_from_slice(&rest[..count]);
    count
}
