//! Drafts of numbers.
ghost use Rattle.std.specs.Prelude.{◌≡◌, None, IfOk, OnOk, OnErr};
ghost use Rattle.drafts.specs.History.{unchanged, changed, undone};
ghost use Rattle.drafts.specs.Numbers.{number_history};

use serial::{Atom, NoMemory};
use std::alloc::Global;

/// The number of an account, a counter or a register, with what it was before each change. A first
/// change takes no memory.
#[derive(Drop)]
pub struct NumberDraft<T: Drop> {
    /// The number now.
    pub number: T,
    /// The number before the last change, if it isn't among the earlier ones.
    pub last: Option<T>,
    /// The numbers before the earlier changes, the earliest first.
    pub earlier: Vec<T>,
}

impl<T: Copy + Drop> NumberDraft<T> {
    /// A number with no change. It takes no memory.
    pub fn of(alloc: Global, number: T) -> NumberDraft<T>
        ensures { number_history result ≡ unchanged number }
    {
        NumberDraft {
            number,
            last: None,
            earlier: Vec::new(alloc),
        }
    }

    /// Performs a call, and returns its reply. On `NoMemory` the number is as before.
    pub fn perform<A: Atom<Value = T>>(&mut self, call: &A::Call) -> Result<A::Reply, NoMemory>
        requires { A.HasRoom self.old.number call.now }
        ensures reply { IfOk result (λ reply. reply ≡ A.serial.reply self.old.number call.now) }
        ensures ok { OnOk result (number_history self.new
            ≡ changed (number_history self.old) (A.serial.after self.old.number call.now)) }
        ensures err { OnErr result (number_history self.new ≡ number_history self.old) }
    {
        self.make_room()?;
        let before = self.number;
        let reply = A::perform(&mut self.number, call)?;
        self.last = Some(before);
        Ok(reply)
    }

    /// Makes room for one more number before, by putting the last one to the earlier ones. On
    /// `NoMemory` all is as before.
    fn make_room(&mut self) -> Result<(), NoMemory>
        ensures history { number_history self.new ≡ number_history self.old }
        ensures room { OnOk result (self.new.last ≡ None) }
    {
        if let Some(last) = self.last {
            self.earlier.push(last)?;
            self.last = None;
        }
        Ok(())
    }

    /// Performs a call for good, and returns its reply: no change before it can be taken back. It
    /// takes no memory but what the call takes. On `NoMemory` the number is as before.
    pub fn settle<A: Atom<Value = T>>(&mut self, call: &A::Call) -> Result<A::Reply, NoMemory>
        requires { A.HasRoom self.old.number call.now }
        ensures reply { IfOk result (λ reply. reply ≡ A.serial.reply self.old.number call.now) }
        ensures ok { OnOk result (number_history self.new
            ≡ unchanged (A.serial.after self.old.number call.now)) }
        ensures err { OnErr result (number_history self.new ≡ number_history self.old) }
        ensures refused { OnErr result (A.MayGrow self.old.number call.now) }
    {
        let answer = A::perform(&mut self.number, call)?;
        self.forget();
        Ok(answer)
    }

    /// Forgets what the number was, so that no change can be taken back. It takes no memory.
    pub fn forget(&mut self)
        ensures { number_history self.new ≡ unchanged self.old.number }
    {
        self.last = None;
        self.earlier.truncate(0);
    }

    /// Takes the last change back, if there is one. It takes no memory.
    pub fn undo(&mut self)
        ensures { number_history self.new ≡ undone (number_history self.old) }
    {
        if let Some(last) = self.last {
            self.number = last;
            self.last = None;
        } else if let Some(before) = self.earlier.pop() {
            self.number = before;
        }
    }
}
