//! Tests of documents that one thread runs, from their text to the text of the report.
use crate::documents::{ACCOUNT, batch_of};
use one_thread::plain;
use report::render_plain;
use std::alloc::AllocGlobal;
use std::process::Abort;

/// Stops the test where the report of one thread for a document of these objects and transactions is
/// another.
fn reports(rt: &(impl Abort + AllocGlobal), objects: &str, transactions: &str, report: &str) {
    let batch = batch_of(rt, 4, objects, transactions);
    let Ok(plain) = plain(rt.alloc(), &batch) else {
        panic!(rt; "no memory")
    };
    let Ok(text) = render_plain(rt.alloc(), &batch, &plain) else {
        panic!(rt; "no memory")
    };
    assert_eq!(rt; text.as_str(), report);
}

const SIX: &str =
    "{\"name\":\"a\",\"kind\":\"account\",\"start\":5},{\"name\":\"c\",\"kind\":\"counter\",\"start\":-3},{\"name\":\"s\",\"kind\":\"set\",\"start\":[\"x\",\"y\"]},{\"name\":\"q\",\"kind\":\"queue\",\"start\":[\"x\",\"x\"]},{\"name\":\"d\",\"kind\":\"directory\",\"start\":[[\"k\",\"v\"]]},{\"name\":\"m\",\"kind\":\"max\",\"start\":7}";

// A subaction that changes objects of each kind and aborts leaves them as they were.
#[test]
fn an_aborted_subaction_is_taken_back(rt: HostRuntime) {
    reports(
        &rt,
        SIX,
        "[{\"sub\":[{\"op\":[\"a\",\"deposit\",1]},{\"op\":[\"c\",\"sub\",2]},{\"op\":[\"s\",\"insert\",\"z\"]},{\"op\":[\"s\",\"remove\",\"x\"]},{\"op\":[\"s\",\"insert\",\"y\"]},{\"op\":[\"q\",\"enq\",\"z\"]},{\"op\":[\"q\",\"deq\"]},{\"op\":[\"d\",\"put\",\"k\",\"w\"]},{\"op\":[\"d\",\"unbind\",\"k\"]},{\"op\":[\"d\",\"bind\",\"j\",\"v\"]},{\"op\":[\"m\",\"raise\",9]},{\"abort\":true}]}]",
        "T 1 committed\nS 1.1 aborted\nO 1.1.b.1 a deposit 1 = ok\nO 1.1.b.2 c sub 2 = ok\nO 1.1.b.3 s insert z = added\nO 1.1.b.4 s remove x = removed\nO 1.1.b.5 s insert y = present\nO 1.1.b.6 q enq z = ok\nO 1.1.b.7 q deq = got x\nO 1.1.b.8 d put k w = ok\nO 1.1.b.9 d unbind k = gone\nO 1.1.b.10 d bind j v = bound\nO 1.1.b.11 m raise 9 = ok\nA 1.1.b.12\n= a account 5\n= c counter -3\n= s set {x y}\n= q queue [x x]\n= d directory {k:v}\n= m max 7\n",
    );
}

// The handler runs on the objects of before the body, and what it does stays.
#[test]
fn a_handler_goes_on_from_before_the_body(rt: HostRuntime) {
    reports(
        &rt,
        ACCOUNT,
        "[{\"sub\":[{\"op\":[\"a\",\"deposit\",5]},{\"sub\":[{\"op\":[\"a\",\"withdraw\",102]}],\"as\":\"s\"},{\"if\":\"s\",\"is\":\"committed\",\"then\":[{\"abort\":true}]}],\"handler\":[{\"op\":[\"a\",\"deposit\",1]}]}],[{\"op\":[\"a\",\"withdraw\",100]}]",
        "T 1 committed\nS 1.1 aborted\nO 1.1.b.1 a deposit 5 = ok\nS 1.1.b.2 committed\nO 1.1.b.2.b.1 a withdraw 102 = ok\nI 1.1.b.3 then\nA 1.1.b.3.t.1\nO 1.1.h.1 a deposit 1 = ok\nT 2 committed\nO 2.1 a withdraw 100 = ok\n= a account 1\n",
    );
}

// An abort that no handler takes passes to the parent, with its reason.
#[test]
fn an_abort_passes(rt: HostRuntime) {
    reports(
        &rt,
        ACCOUNT,
        "[{\"sub\":[{\"sub\":[{\"op\":[\"a\",\"withdraw\",20]},{\"abort\":\"short\"}],\"handlers\":{\"late\":[{\"op\":[\"a\",\"deposit\",1]}]}},{\"op\":[\"a\",\"deposit\",2]}],\"handlers\":{\"short\":[{\"op\":[\"a\",\"deposit\",5]}]}}]",
        "T 1 committed\nS 1.1 aborted short\nS 1.1.b.1 aborted short\nO 1.1.b.1.b.1 a withdraw 20 = ok\nA 1.1.b.1.b.2 short\nO 1.1.h:short.1 a deposit 5 = ok\n= a account 105\n",
    );
}

// A child whose handler aborts ends the block and with it the transaction; later children are not
// reached.
#[test]
fn children_after_an_abort_are_not_run(rt: HostRuntime) {
    reports(
        &rt,
        ACCOUNT,
        "[{\"parallel\":[{\"sub\":[{\"op\":[\"a\",\"withdraw\",60]}]},{\"sub\":[{\"op\":[\"a\",\"withdraw\",60],\"as\":\"w\"},{\"if\":\"w\",\"is\":\"no\",\"then\":[{\"abort\":true}]}],\"handler\":[{\"abort\":true}]},{\"sub\":[{\"op\":[\"a\",\"deposit\",1]}]}]}]",
        "T 1 aborted\nS 1.1.1 committed\nO 1.1.1.b.1 a withdraw 60 = ok\nS 1.1.2 aborted\nO 1.1.2.b.1 a withdraw 60 = no\nI 1.1.2.b.2 then\nA 1.1.2.b.2.t.1\nA 1.1.2.h.1\n= a account 100\n",
    );
}
