//! Tests of the committed list.
ghost use Rattle.std.specs.Prelude.{◌≡◌, ◌<◌};

use committed::{Call, Committed, Entry, Mark, MarkedEntry, Reply, mark_all, summarize};
use objects::{
    AccountCall, AccountReply, Amount, DirectoryCall, DirectoryReply, EntryHashing, Item, MaxCall,
    MaxReply, QueueCall, QueueReply, SetCall, SetReply,
};
use std::alloc::AllocGlobal;
use std::process::Abort;
use std::test::Fail;

fn amount(rt: &impl Abort, number: u64) -> Amount {
    Amount::new(number).expect(rt, "an amount")
}

/// Whether the entries are still valid after the first `upto` of a list.
fn stand_in(
    rt: &(impl Abort + AllocGlobal),
    committed: &Committed,
    entries: &[Entry],
    upto: usize,
) -> bool {
    let Ok(marked) = mark_all(rt.alloc(), entries) else {
        panic!(rt; "no memory")
    };
    committed.stands(&marked, upto.min(committed.len()))
}

/// Stops the test where the entries are not still valid after the first `upto` of a list.
fn valid_in(
    rt: &(impl Abort + AllocGlobal),
    committed: &Committed,
    entries: &[Entry],
    upto: usize,
) {
    assert!(rt; stand_in(rt, committed, entries, upto));
}

/// Stops the test where the entries are still valid after the first `upto` of a list.
fn refuted_in(
    rt: &(impl Abort + AllocGlobal),
    committed: &Committed,
    entries: &[Entry],
    upto: usize,
) {
    assert!(rt; !stand_in(rt, committed, entries, upto));
}

/// A list of these entries, which has no index.
fn list_of(rt: &(impl Abort + AllocGlobal), entries: &[Entry]) -> Committed {
    let mut committed = Committed::new(rt.alloc());
    let Ok(()) = committed.append(entries) else {
        panic!(rt; "no memory")
    };
    committed
}

/// A list of these entries, all of which are in its index.
fn indexed_list_of(rt: &(impl Abort + AllocGlobal), entries: &[Entry]) -> Committed {
    let mut committed = list_of(rt, entries);
    let Ok(()) = committed.list() else {
        panic!(rt; "no memory")
    };
    committed
}

/// Stops the test where the entries are not still valid after others, with an index or without one.
fn valid_after(rt: &(impl Abort + AllocGlobal), entries: &[Entry], others: &[Entry]) {
    valid_in(rt, &list_of(rt, others), entries, others.len());
    valid_in(rt, &indexed_list_of(rt, others), entries, others.len());
}

/// Stops the test where the entries are still valid after others, with an index or without one.
fn refuted_after(rt: &(impl Abort + AllocGlobal), entries: &[Entry], others: &[Entry]) {
    refuted_in(rt, &list_of(rt, others), entries, others.len());
    refuted_in(rt, &indexed_list_of(rt, others), entries, others.len());
}

#[test]
fn stands(rt: HostRuntime) -> Result<(), Fail> {
    let deposit = Entry {
        object: 0,
        call: Call::Account(AccountCall::Deposit(amount(&rt, 1))),
        reply: Reply::Account(AccountReply::Ok),
    };
    let balance = Entry {
        object: 0,
        call: Call::Account(AccountCall::Balance),
        reply: Reply::Account(AccountReply::Number(5)),
    };
    let elsewhere = Entry {
        object: 3,
        call: Call::Account(AccountCall::Balance),
        reply: Reply::Account(AccountReply::Number(5)),
    };
    let alloc = rt.alloc();
    let mut committed = Committed::new(alloc);
    valid_in(&rt, &committed, &[deposit, balance], 0);
    committed.append(&[elsewhere, deposit, deposit])?;
    committed.list()?;
    committed.append(&[balance])?;
    assert_eq!(rt; committed.len(), 4);
    valid_in(&rt, &committed, &[deposit, elsewhere], 3);
    refuted_in(&rt, &committed, &[deposit], 4);
    valid_in(&rt, &committed, &[balance], 1);
    refuted_in(&rt, &committed, &[elsewhere, balance], 2);
    valid_after(&rt, &[balance], &[balance]);
    Ok(())
}

#[test]
fn operations_on_other_items_stand(rt: HostRuntime) -> Result<(), Fail> {
    let set = |call: SetCall, reply: SetReply| -> Entry {
        Entry {
            object: 2,
            call: Call::Set(call),
            reply: Reply::Set(reply),
        }
    };
    let first = set(SetCall::Insert(Item(1)), SetReply::Added);
    let second = set(SetCall::Insert(Item(2)), SetReply::Added);
    let absent = set(SetCall::Has(Item(1)), SetReply::No);
    let size = set(SetCall::Size, SetReply::Number(0));
    let put = Entry {
        object: 3,
        call: Call::Directory(DirectoryCall::Put(Item(1), Item(5))),
        reply: Reply::Directory(DirectoryReply::Ok),
    };
    let lookup = Entry {
        object: 3,
        call: Call::Directory(DirectoryCall::Lookup(Item(1))),
        reply: Reply::Directory(DirectoryReply::Missing),
    };
    let alloc = rt.alloc();
    let mut committed = Committed::new(alloc);
    committed.append(&[first, put])?;
    committed.list()?;
    valid_in(&rt, &committed, &[second, put], 2);
    refuted_in(&rt, &committed, &[first], 2);
    valid_after(&rt, &[first], &[put]);
    refuted_in(&rt, &committed, &[absent], 2);
    refuted_in(&rt, &committed, &[size], 2);
    refuted_in(&rt, &committed, &[lookup], 2);
    committed.append(&[size])?;
    refuted_in(&rt, &committed, &[second], 3);
    valid_after(&rt, &[absent, size], &[put, size]);
    Ok(())
}

#[test]
fn runs_of_equal_entries_are_searched(rt: HostRuntime) -> Result<(), Fail> {
    let enq = |item: u32| -> Entry {
        Entry {
            object: 1,
            call: Call::Queue(QueueCall::Enq(Item(item))),
            reply: Reply::Queue(QueueReply::Ok),
        }
    };
    let refused = Entry {
        object: 0,
        call: Call::Account(AccountCall::Withdraw(amount(&rt, 9))),
        reply: Reply::Account(AccountReply::No),
    };
    let entries = [
        enq(7),
        enq(7),
        refused,
        enq(7),
        enq(8),
        enq(7),
        enq(7),
        refused,
    ];
    let committed = indexed_list_of(&rt, &entries);
    assert_eq!(rt; committed.len(), 8);
    valid_in(&rt, &committed, &[enq(7), refused], 4);
    refuted_in(&rt, &committed, &[enq(7)], 8);
    refuted_in(&rt, &committed, &[enq(8)], 4);
    refuted_after(&rt, &[enq(7)], &entries[4..5]);
    valid_after(&rt, &[enq(7)], &entries[5..8]);
    refuted_after(&rt, &[enq(8)], &entries[6..8]);
    valid_after(&rt, &[enq(8)], &entries[4..5]);
    Ok(())
}

#[test]
fn spans_of_raises_are_searched(rt: HostRuntime) -> Result<(), Fail> {
    let raise = |number: u64| -> Entry {
        Entry {
            object: 5,
            call: Call::Max(MaxCall::Raise(amount(&rt, number))),
            reply: Reply::Max(MaxReply::Ok),
        }
    };
    let top = |number: u64| -> Entry {
        Entry {
            object: 5,
            call: Call::Max(MaxCall::Top),
            reply: Reply::Max(MaxReply::Number(number)),
        }
    };
    let entries = [
        raise(5),
        raise(3),
        raise(9),
        raise(1),
        raise(7),
        raise(2),
        raise(8),
    ];
    let committed = indexed_list_of(&rt, &entries);
    valid_in(&rt, &committed, &[top(9), raise(6)], 7);
    refuted_in(&rt, &committed, &[top(8)], 7);
    valid_in(&rt, &committed, &[top(5)], 2);
    refuted_in(&rt, &committed, &[top(4)], 2);
    valid_after(&rt, &[top(8)], &entries[3..]);
    refuted_after(&rt, &[top(7)], &entries[3..]);
    valid_after(&rt, &[top(7)], &entries[3..6]);
    refuted_after(&rt, &[top(6)], &entries[3..6]);
    refuted_after(&rt, &[top(1)], &entries[5..6]);
    Ok(())
}

#[test]
fn dequeues_are_searched_by_item(rt: HostRuntime) -> Result<(), Fail> {
    let operation = |call: QueueCall, reply: QueueReply| -> Entry {
        Entry {
            object: 1,
            call: Call::Queue(call),
            reply: Reply::Queue(reply),
        }
    };
    let enq = operation(QueueCall::Enq(Item(3)), QueueReply::Ok);
    let first = operation(QueueCall::Deq, QueueReply::Got(Item(1)));
    let second = operation(QueueCall::Deq, QueueReply::Got(Item(2)));
    let third = operation(QueueCall::Deq, QueueReply::Got(Item(3)));
    let none = operation(QueueCall::Deq, QueueReply::Empty);
    let length = operation(QueueCall::Length, QueueReply::Number(2));
    let committed = indexed_list_of(&rt, &[first, enq, second]);
    valid_in(&rt, &committed, &[third, enq], 3);
    refuted_in(&rt, &committed, &[second], 3);
    refuted_in(&rt, &committed, &[none], 3);
    valid_after(&rt, &[first], &[second]);
    refuted_after(&rt, &[length], &[second]);
    refuted_after(&rt, &[first], &[second, none, length]);
    valid_after(&rt, &[first, second, length], &[none]);
    Ok(())
}

#[test]
fn long_chains_are_searched(rt: HostRuntime) -> Result<(), Fail> {
    let raise = |number: u64| -> Entry {
        Entry {
            object: 5,
            call: Call::Max(MaxCall::Raise(amount(&rt, number))),
            reply: Reply::Max(MaxReply::Ok),
        }
    };
    let top = |number: u64| -> Entry {
        Entry {
            object: 5,
            call: Call::Max(MaxCall::Top),
            reply: Reply::Max(MaxReply::Number(number)),
        }
    };
    let alloc = rt.alloc();
    let mut committed = Committed::new(alloc);
    for number in 1..501u64 {
        committed.append(&[raise(number), raise(1)])?;
    }
    committed.list()?;
    for number in 1..501u64 {
        let upto = 2 * number as usize;
        valid_in(&rt, &committed, &[top(number)], upto);
        if number < 500 {
            refuted_in(&rt, &committed, &[top(number)], upto + 1);
        }
        if number > 1 {
            refuted_in(&rt, &committed, &[top(number - 1)], upto - 1);
        }
    }
    Ok(())
}

#[test]
fn grown_lists_are_searched(rt: HostRuntime) -> Result<(), Fail> {
    let put = |object: u32, key: u32, value: u32| -> Entry {
        Entry {
            object,
            call: Call::Directory(DirectoryCall::Put(Item(key), Item(value))),
            reply: Reply::Directory(DirectoryReply::Ok),
        }
    };
    let alloc = rt.alloc();
    let mut committed = Committed::new(alloc);
    for key in 0..4000u32 {
        committed.append(&[put(key % 7, key, 1)])?;
    }
    committed.list()?;
    for key in 0..4000u32 {
        let upto = key as usize;
        valid_in(&rt, &committed, &[put(key % 7, key, 2)], upto);
        refuted_in(&rt, &committed, &[put(key % 7, key, 2)], upto + 1);
        valid_in(&rt, &committed, &[put(key % 7, key, 1)], 4000);
        valid_in(&rt, &committed, &[put(key % 7 + 1, key, 2)], 4000);
    }
    Ok(())
}

#[test]
fn a_cleared_list_is_used_again(rt: HostRuntime) -> Result<(), Fail> {
    let balance = Entry {
        object: 0,
        call: Call::Account(AccountCall::Balance),
        reply: Reply::Account(AccountReply::Number(5)),
    };
    let deposit = Entry {
        object: 0,
        call: Call::Account(AccountCall::Deposit(amount(&rt, 1))),
        reply: Reply::Account(AccountReply::Ok),
    };
    let mut committed = Committed::new(rt.alloc());
    for count in [1, 2000, 2] {
        for _ in 0..count {
            committed.append(&[balance])?;
        }
        committed.list()?;
        refuted_in(&rt, &committed, &[deposit], 1);
        committed.clear();
        assert_eq!(rt; committed.len(), 0);
        committed.append(&[deposit])?;
        valid_in(&rt, &committed, &[deposit], 1);
        refuted_in(&rt, &committed, &[balance], 1);
        committed.clear();
        valid_in(&rt, &committed, &[balance], 0);
    }
    Ok(())
}

/// Appends these entries where none that is as strict is listed. Stops the test where the list has
/// another length then.
fn append_new_gives(
    rt: &(impl Abort + AllocGlobal),
    committed: &mut Committed,
    entries: &[Entry],
    expected: usize,
) {
    let Ok(marked) = mark_all(rt.alloc(), entries) else {
        panic!(rt; "no memory")
    };
    let Ok(()) = committed.append_new(&marked) else {
        panic!(rt; "no memory")
    };
    assert_eq!(rt; committed.len(), expected);
}

#[test]
fn entries_are_left_out_where_one_is_as_strict(rt: HostRuntime) -> Result<(), Fail> {
    let account = |call: AccountCall, reply: AccountReply| -> Entry {
        Entry {
            object: 4,
            call: Call::Account(call),
            reply: Reply::Account(reply),
        }
    };
    let deposit = account(AccountCall::Deposit(amount(&rt, 5)), AccountReply::Ok);
    let another = account(AccountCall::Deposit(amount(&rt, 9)), AccountReply::Ok);
    let smaller = account(AccountCall::Withdraw(amount(&rt, 5)), AccountReply::Ok);
    let larger = account(AccountCall::Withdraw(amount(&rt, 9)), AccountReply::Ok);
    let elsewhere = Entry {
        object: 5,
        ..deposit
    };
    let mut committed = Committed::new(rt.alloc());
    // Without an index all are appended.
    append_new_gives(&rt, &mut committed, &[deposit, another, deposit], 3);
    committed.clear();
    for object in 100..140u32 {
        committed.append(&[Entry { object, ..deposit }])?;
    }
    append_new_gives(&rt, &mut committed, &[deposit], 41);
    committed.list()?;
    append_new_gives(&rt, &mut committed, &[deposit, another, deposit], 41);
    append_new_gives(&rt, &mut committed, &[elsewhere, larger, another], 43);
    committed.list()?;
    append_new_gives(&rt, &mut committed, &[smaller, larger, elsewhere], 44);
    assert!(rt; committed.entries().last() == Some(&smaller));
    Ok(())
}

#[test]
fn entries_of_one_hash_are_told_apart(rt: HostRuntime) -> Result<(), Fail> {
    let put = |object: u32, key: u32, value: u32| -> Entry {
        Entry {
            object,
            call: Call::Directory(DirectoryCall::Put(Item(key), Item(value))),
            reply: Reply::Directory(DirectoryReply::Ok),
        }
    };
    let alloc = rt.alloc();
    let mut committed = Committed::new(alloc);
    for object in 0..40u32 {
        let twin = object + 2971215073;
        assert_eq!(rt;
            Mark::of(&put(object, 7, 1)).of_item,
            Mark::of(&put(twin, 50920850, 1)).of_item
        );
        committed.append(&[put(object, 7, 1), put(twin, 50920850, 2), put(object, 7, 1)])?;
    }
    committed.list()?;
    for object in 0..40u32 {
        let twin = object + 2971215073;
        let upto = 3 * object as usize;
        valid_in(
            &rt,
            &committed,
            &[put(object, 7, 1), put(twin, 50920850, 2)],
            120,
        );
        valid_in(&rt, &committed, &[put(twin, 50920850, 1)], upto + 1);
        refuted_in(&rt, &committed, &[put(twin, 50920850, 1)], upto + 2);
        refuted_in(&rt, &committed, &[put(object, 7, 2)], 120);
    }
    Ok(())
}

/// A put under a key of one directory.
fn put_under(key: u32, value: u32) -> Entry {
    Entry {
        object: 3,
        call: Call::Directory(DirectoryCall::Put(Item(key), Item(value))),
        reply: Reply::Directory(DirectoryReply::Ok),
    }
}

#[test]
fn each_key_is_searched_by_itself(rt: HostRuntime) -> Result<(), Fail> {
    let keys: usize = 400;
    let mut committed = Committed::hashed_by(rt.alloc(), EntryHashing::of(7));
    for key in 0..keys {
        committed.append(&[put_under(key as u32, 1)])?;
    }
    committed.list()?;
    for place in 0..keys {
        let key = place as u32;
        let other = put_under(key, 2);
        let same = put_under(key, 1);
        let new = put_under(key + 400, 2);
        valid_in(&rt, &committed, &[other], place);
        refuted_in(&rt, &committed, &[other], keys);
        valid_in(&rt, &committed, &[same, new], keys);
    }
    Ok(())
}

/// Whether an entry is still valid after the first `upto` of a list, which gets its index once this
/// pays.
fn checked_in(
    rt: &(impl Abort + AllocGlobal),
    committed: &mut Committed,
    entry: &Entry,
    upto: usize,
) -> bool {
    let upto = upto.min(committed.len());
    let Ok(stands) = committed.check(&[MarkedEntry::of(entry)], upto) else {
        panic!(rt; "no memory")
    };
    stands
}

#[test]
fn an_index_is_made_once_it_pays(rt: HostRuntime) -> Result<(), Fail> {
    let keys: usize = 400;
    let mut committed = Committed::new(rt.alloc());
    for key in 0..keys {
        committed.append_new(&[MarkedEntry::of(&put_under(key as u32, 1))])?;
    }
    // Each look compares with all entries, until enough did. All find the same.
    for place in 0..keys {
        let other = put_under(place as u32, 2);
        let same = put_under(place as u32, 1);
        assert!(rt; !checked_in(&rt, &mut committed, &other, keys));
        assert!(rt; checked_in(&rt, &mut committed, &other, place));
        assert!(rt; checked_in(&rt, &mut committed, &same, keys));
    }
    // What is listed is left out.
    append_new_gives(
        &rt,
        &mut committed,
        &[put_under(7, 1), put_under(9, 1)],
        keys,
    );
    Ok(())
}

#[test]
fn an_entry_is_not_appended_again_and_again(rt: HostRuntime) -> Result<(), Fail> {
    let mut committed = Committed::new(rt.alloc());
    for _ in 0..1000 {
        committed.append_new(&[MarkedEntry::of(&put_under(7, 1))])?;
    }
    assert!(rt; committed.len() < 50);
    Ok(())
}

#[test]
fn a_list_covers_what_is_in_its_index(rt: HostRuntime) -> Result<(), Fail> {
    let (first, second) = (put_under(7, 1), put_under(9, 1));
    let mut committed = list_of(&rt, &[first]);
    committed.list_rest()?;
    assert!(rt; !committed.covers_all(&[MarkedEntry::of(&first)]));
    committed.list()?;
    assert!(rt; committed.covers_all(&[MarkedEntry::of(&first)]));
    committed.append(&[second])?;
    assert!(rt; !committed.covers_all(&[MarkedEntry::of(&first)]));
    committed.list_rest()?;
    assert!(rt; committed.covers_all(&[MarkedEntry::of(&first), MarkedEntry::of(&second)]));
    Ok(())
}

/// Stops the test where a summary of two and the entries that it stands for differ: whether they
/// are valid after another entry, and whether it is valid after them.
fn summary_is_as(
    rt: &(impl Abort + AllocGlobal),
    summary: &[MarkedEntry],
    entries: &[Entry],
    other: Entry,
) {
    let committed = list_of(rt, &[other]);
    let all_stand = stand_in(rt, &committed, entries, 1);
    assert!(rt; committed.stands(summary, committed.len()) == all_stand);
    let mut short = Committed::new(rt.alloc());
    let Ok(()) = short.append_marked(summary) else {
        panic!(rt; "no memory")
    };
    let past_all = stand_in(rt, &list_of(rt, entries), &[other], entries.len());
    assert!(rt; stand_in(rt, &short, &[other], 2) == past_all);
}

#[test]
fn many_operations_have_a_short_summary(rt: HostRuntime) -> Result<(), Fail> {
    let account = |call: AccountCall, reply: AccountReply| -> Entry {
        Entry {
            object: 4,
            call: Call::Account(call),
            reply: Reply::Account(reply),
        }
    };
    let alloc = rt.alloc();
    let mut entries = Vec::new(alloc);
    for number in 1..501u64 {
        let some = amount(&rt, number);
        entries.push(account(AccountCall::Deposit(some), AccountReply::Ok))?;
        entries.push(account(AccountCall::Withdraw(some), AccountReply::Ok))?;
    }
    let mut summary = Vec::new(alloc);
    summarize(alloc, EntryHashing::of(7), &entries, &mut summary)?;
    assert_eq!(rt; summary.len(), 2);
    let few = amount(&rt, 1);
    let mut others = Vec::new(alloc);
    others.push(account(AccountCall::Deposit(few), AccountReply::Ok))?;
    others.push(account(AccountCall::Withdraw(few), AccountReply::Ok))?;
    others.push(account(AccountCall::Withdraw(few), AccountReply::No))?;
    for number in 0..3u64 {
        others.push(account(AccountCall::Balance, AccountReply::Number(number)))?;
    }
    for other in &others {
        summary_is_as(&rt, &summary, &entries, *other);
    }
    Ok(())
}

/// Stops the test where the summary of some entries has another length.
fn summary_has(rt: &(impl Abort + AllocGlobal), entries: &[Entry], expected: usize) {
    let alloc = rt.alloc();
    let mut summary = Vec::new(alloc);
    summarize(alloc, EntryHashing::of(7), entries, &mut summary)
        .ok()
        .expect(rt, "memory");
    assert_eq!(rt; summary.len(), expected);
}

/// An operation on an item of a set.
fn of_set(call: SetCall, reply: SetReply) -> Entry {
    Entry {
        object: 1,
        call: Call::Set(call),
        reply: Reply::Set(reply),
    }
}

#[test]
fn a_third_of_an_item_is_left_out(rt: HostRuntime) {
    let item = Item(7);
    let added = of_set(SetCall::Insert(item), SetReply::Added);
    let present = of_set(SetCall::Has(item), SetReply::Yes);
    let removed = of_set(SetCall::Remove(item), SetReply::Removed);
    let absent = of_set(SetCall::Has(item), SetReply::No);
    let mut entries = Vec::new(rt.alloc());
    for _ in 0..25 {
        for entry in [added, present, removed, absent] {
            entries.push(entry).ok().expect(&rt, "memory");
        }
    }
    summary_has(&rt, &entries, 2);
}

/// A put of a value under a key of a directory.
fn put_of(key: u32, value: u32) -> Entry {
    Entry {
        object: 2,
        call: Call::Directory(DirectoryCall::Put(Item(key), Item(value))),
        reply: Reply::Directory(DirectoryReply::Ok),
    }
}

/// A lookup that found a value under a key of a directory.
fn found_of(key: u32, value: u32) -> Entry {
    Entry {
        object: 2,
        call: Call::Directory(DirectoryCall::Lookup(Item(key))),
        reply: Reply::Directory(DirectoryReply::Found(Item(value))),
    }
}

#[test]
fn a_third_of_a_key_is_left_out(rt: HostRuntime) {
    let mut entries = Vec::new(rt.alloc());
    for number in 0..100u32 {
        entries.push(put_of(7, number)).ok().expect(&rt, "memory");
        entries.push(found_of(7, number)).ok().expect(&rt, "memory");
    }
    summary_has(&rt, &entries, 2);
    entries.push(put_of(8, 1)).ok().expect(&rt, "memory");
    summary_has(&rt, &entries, 3);
}

#[test]
fn a_third_of_a_queue_is_left_out(rt: HostRuntime) {
    let mut entries = Vec::new(rt.alloc());
    for number in 0..100u32 {
        let enqueued = Entry {
            object: 3,
            call: Call::Queue(QueueCall::Enq(Item(number))),
            reply: Reply::Queue(QueueReply::Ok),
        };
        entries.push(enqueued).ok().expect(&rt, "memory");
    }
    summary_has(&rt, &entries, 2);
}
