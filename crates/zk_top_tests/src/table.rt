use std::alloc::Global;
use std::process::Abort;
use std::test::Fail;
use zk_base::{Mem, Moment, Span};
use zk_table::{Expiry, Table};
use zk_value::{Key, Value};

/// A call on a table, and whether it finds the entry where it answers that.
#[derive(Clone, Copy)]
enum Call {
    /// now, key, value
    Insert(i64, u64, u64),
    /// key, whether it was there
    Remove(u64, bool),
    /// now, key
    Renew(i64, u64),
    /// order number, wait, whether there was such an entry
    Expire(u64, i64, bool),
}

use Call::{Expire, Insert, Remove, Renew};

/// A due and its order number.
type Due = Option<(i64, u64)>;

fn key_of(alloc: Global, number: u64) -> Result<Key, Mem> {
    Key::copy_of(alloc, &[Value::Count(number)])
}

fn make(rt: &impl Abort, alloc: Global, table: &mut Table, call: &Call) -> Result<(), Mem> {
    match call {
        Insert(now, key, value) => {
            table.insert(Moment(*now), key_of(alloc, *key)?, Value::Count(*value))?
        }
        Remove(key, there) => assert!(rt; table.remove(&key_of(alloc, *key)?) == *there),
        Renew(now, key) => table.renew(Moment(*now), &key_of(alloc, *key)?),
        Expire(order, wait, there) => {
            assert!(rt; table.expire(*order, Span(*wait)) == *there);
        }
    }
    Ok(())
}

/// Makes calls on a table and compares the due after each, and the entries at the end.
fn compare(
    rt: &impl Abort,
    alloc: Global,
    table: &mut Table,
    calls: &[(Call, Due)],
) -> Result<(), Mem> {
    for (number, (call, due)) in calls.iter().enumerate() {
        make(rt, alloc, table, call)?;
        let found = table.due().map(|(at, order)| (at.0, order));
        assert!(rt; found == *due, "call {number}");
    }
    assert!(rt; table.len() == ENTRIES.len());
    let keys = table.keys()?;
    for (number, (order, key, value)) in ENTRIES.iter().enumerate() {
        let key = key_of(alloc, *key)?;
        assert!(rt; keys.get(number) == Some(&key), "key {number}");
        assert!(rt; table.key(*order) == Some(&key), "order {number}");
        assert!(rt;
            table.get(&key) == Some(&Value::Count(*value)),
            "value {number}"
        );
    }
    Ok(())
}

/// The entries that are there at the end: order, key and value.
const ENTRIES: [(u64, u64, u64); 3] = [(1, 5, 50), (3, 9, 92), (4, 7, 71)];

/// Calls on a table whose entries don't expire.
const WITHOUT: [(Call, Due); 12] = [
    (Insert(1, 9, 90), None),
    (Insert(2, 5, 50), None),
    (Insert(2, 7, 70), None),
    (Insert(4, 9, 91), None),
    (Renew(6, 5), None),
    (Expire(2, 3, true), None),
    (Expire(2, 0, true), None),
    (Expire(2, 5, false), None),
    (Remove(9, true), None),
    (Remove(9, false), None),
    (Insert(9, 9, 92), None),
    (Insert(9, 7, 71), None),
];

/// Calls on one whose entries expire 10 microseconds after they were made.
const CREATED: [(Call, Due); 13] = [
    (Insert(1, 9, 90), Some((11, 0))),
    (Insert(2, 5, 50), Some((11, 0))),
    (Insert(2, 7, 70), Some((11, 0))),
    (Insert(4, 9, 91), Some((11, 0))),
    (Renew(6, 5), Some((11, 0))),
    (Renew(6, 8), Some((11, 0))),
    (Expire(2, 3, true), Some((5, 2))),
    (Expire(2, 0, true), Some((11, 0))),
    (Expire(2, 5, false), Some((11, 0))),
    (Remove(9, true), Some((16, 1))),
    (Remove(9, false), Some((16, 1))),
    (Insert(9, 9, 92), Some((16, 1))),
    (Insert(9, 7, 71), Some((16, 1))),
];

/// Calls on one whose entries expire 10 microseconds after they were last renewed, by assignments too.
const RENEWED: [(Call, Due); 12] = [
    (Insert(1, 9, 90), Some((11, 0))),
    (Insert(2, 5, 50), Some((11, 0))),
    (Insert(2, 7, 70), Some((11, 0))),
    (Insert(4, 9, 91), Some((12, 1))),
    (Renew(6, 5), Some((12, 2))),
    (Renew(6, 8), Some((12, 2))),
    (Expire(2, 3, true), Some((5, 2))),
    (Expire(2, -3, true), Some((14, 0))),
    (Expire(2, 5, false), Some((14, 0))),
    (Remove(9, true), Some((16, 1))),
    (Insert(9, 9, 92), Some((16, 1))),
    (Insert(9, 7, 71), Some((16, 1))),
];

/// Compares calls on a new table whose entries expire so.
fn compare_new(
    rt: &impl Abort,
    alloc: Global,
    expiry: Option<Expiry>,
    calls: &[(Call, Due)],
) -> Result<(), Mem> {
    let mut table = Table::new(alloc, expiry);
    compare(rt, alloc, &mut table, calls)
}

#[test]
fn calls_do_what_each_expiry_says(rt: HostRuntime) -> Result<(), Fail> {
    let alloc = rt.alloc();
    compare_new(&rt, alloc, None, &WITHOUT)?;
    compare_new(&rt, alloc, Some(Expiry::Create(Span(10))), &CREATED)?;
    compare_new(&rt, alloc, Some(Expiry::Read(Span(10))), &RENEWED)?;
    compare_new(&rt, alloc, Some(Expiry::Write(Span(10))), &RENEWED)?;
    Ok(())
}
