//! The endpoints of a gateway, and its own post, with the table of what falls due first of each.
ghost use Rattle.std.specs.Prelude.{ℕ, ◌≡◌, ◌-◌, ◌<◌, ◌≤◌, false, length, slice_set, slice_index_or, IfOk};
ghost use Rattle.std.specs.Borrow.{MutBor};
ghost use Rattle.plain_machine.specs.declared.post.Post.{Post};
ghost use Rattle.plain_machine.specs.declared.endpoint.Endpoint.{Endpoint};
ghost use Rattle.plain_machine.specs.declared.setup.Setup.{Setup};
ghost use Rattle.mg_line.specs.Acting.{is_heeded};
ghost use Rattle.plain_machine.specs.Effect.{silently};
ghost use Rattle.plain_machine.specs.Acting.{acted_on};
ghost use Rattle.plain_machine.specs.Falling.{first_due, due_by};
ghost use Rattle.machine_rules.specs.Lines.{most_lines};
ghost use Rattle.endpoints.specs.Ids.{HasId};
ghost use Rattle.endpoints.specs.Changing.{EndpointChanges, OwnChanges, KeepsId};
ghost use Rattle.endpoints.specs.Saving.{endpoints_of};
ghost use Rattle.endpoints.specs.DueTable.{InStep};

use crate::due_table::{enter, renew};
use crate::rules::{due_on, post_due};
use machine_rules::due_by;
use mg_bytes::OutOfMemory;
use mg_line::Act;
use plain_machine::{Endpoint, Post};
use std::alloc::Global;
use std::marker::Model;
use timers::{Due, DueItem};

/// The endpoints of a gateway, at most `MOST_LINES`, and its own post. A contract sees them alone.
///
/// The table of what falls due is always in step with them. All its memory is taken by `of`.
#[derive(Drop)]
pub(crate) struct Timed {
    list: Vec<Endpoint>,
    own: Post,
    due: Due,
}

impl Model for Timed {
    ghost use Rattle.std.specs.Prelude.{◌≤◌, length};
    ghost use Rattle.plain_machine.specs.Machine.{Endpoints};
    ghost use Rattle.machine_rules.specs.Lines.{most_lines};
    ghost use Rattle.endpoints.specs.Ids.{HasId};
    ghost use Rattle.endpoints.specs.Saving.{endpoints_of};
    ghost use Rattle.endpoints.specs.DueTable.{InStep};

    ghost Value = { Endpoints };

    ghost view = { λ t. endpoints_of t.list.items t.own };

    ghost invariant = { λ t. record {
      few : length t.list.items ≤ most_lines;
      id : HasId 0 t.own.number;
      due : InStep (endpoints_of t.list.items t.own) t.due;
    } };
}

impl Timed {
    ghost use Rattle.std.specs.Prelude.{[], true};
    ghost use Rattle.plain_machine.specs.Machine.{endpoint_at, with_own};
    ghost use Rattle.plain_machine.specs.Acting.{acted};
    ghost use Rattle.plain_machine.specs.Refusing.{is_unheeded};
    ghost use Rattle.endpoints.specs.Telling.{IsLine};

    /// These endpoints, and this post of the gateway itself. An error is for want of memory only.
    pub(crate) fn of(alloc: Global, list: Vec<Endpoint>, own: Post) -> Result<Self, OutOfMemory>
        requires few { length list.items ≤ most_lines }
        requires id { HasId 0 own.number }
        ensures { IfOk result (λ timed. timed ≡ endpoints_of list.items own) }
    {
        let due = filled(alloc, &list, &own)?;
        Ok(Timed { list, own, due })
    }

    /// What falls due first of all.
    pub(crate) fn first_due(&self) -> Option<DueItem>
        ensures { result ≡ first_due self.now }
    {
        self.due.least()
    }

    /// What falls due first of all, where it is due up to a moment (in ms).
    #[tactic(auto, unfolding(plain_machine::specs::Falling::due_by))]
    pub(crate) fn due_by(&self, moment: u64) -> Option<DueItem>
        ensures { result ≡ due_by self.now moment }
    {
        due_by(&self.due, moment)
    }

    /// The post of the gateway itself.
    pub(crate) fn own(&self) -> &Post
        ensures value { result.now ≡ self.now.own }
        ensures id { HasId 0 result.now.number }
    {
        &self.own
    }

    /// The endpoints, of which the first is that of line 1.
    pub(crate) fn list(&self) -> &[Endpoint]
        ensures value { result.now ≡ self.now.list }
        ensures few { length result.now ≤ most_lines }
    {
        &self.list
    }

    /// The endpoint at this place is changed in place, with what else the change is to see.
    pub(crate) fn change<C, T, F: FnOnce(&mut Endpoint, &mut C) -> T>(
        &mut self,
        place: usize,
        with: &mut C,
        change: F,
    ) -> T
        requires within { place < length self.old.list }
        requires callable { (p : MutBor Endpoint) (q : MutBor C) → p.now ≡ slice_index_or self.old.list place p.now
            → q.now ≡ with.old → F.pre change p q }
        ensures { EndpointChanges F.FnOnce change place self.old with.old result self.new with.new }
    {
        let endpoint = &self.list[place];
        let line = place as u16 + 1;
        let was = due_on(line, endpoint);
        let result = change(&mut self.list[place], with);
        let is = due_on(line, &self.list[place]);
        renew(&mut self.due, line, was, is);
        result
    }

    /// The post of the gateway itself is changed in place, with what else the change is to see.
    pub(crate) fn change_own<C, T, F: FnOnce(&mut Post, &mut C) -> T>(
        &mut self,
        with: &mut C,
        change: F,
    ) -> T
        requires callable { (p : MutBor Post) (q : MutBor C) → p.now ≡ self.old.own → HasId 0 p.now.number
            → q.now ≡ with.old → F.pre change p q }
        requires keeps { KeepsId F.FnOnce change }
        ensures { OwnChanges F.FnOnce change self.old with.old result self.new with.new }
    {
        let was = post_due(0, &self.own);
        let result = change(&mut self.own, with);
        let is = post_due(0, &self.own);
        renew(&mut self.due, 0, was, is);
        result
    }

    /// The endpoint at this place becomes this one.
    pub(crate) fn exchange(&mut self, place: usize, endpoint: Endpoint)
        requires { place < length self.old.list }
        ensures { self.new ≡ record self.old { list = slice_set self.old.list place endpoint } }
    {
        let before = &self.list[place];
        let line = place as u16 + 1;
        let was = due_on(line, before);
        let is = due_on(line, &endpoint);
        renew(&mut self.due, line, was, is);
        self.list[place] = endpoint;
    }

    /// The post of the gateway itself becomes this.
    pub(crate) fn exchange_own(&mut self, own: Post)
        requires { HasId 0 own.number }
        ensures { self.new ≡ with_own self.old own }
    {
        let was = post_due(0, &self.own);
        let is = post_due(0, &own);
        renew(&mut self.due, 0, was, is);
        self.own = own;
    }

    /// An act at the telephone of a line that doesn't heed it. It takes no memory.
    pub(crate) fn pass_over(&mut self, line: u16, act: Act)
        requires line { IsLine line }
        requires within { line - 1 < length self.old.list }
        requires unheeded { is_unheeded (endpoint_at self.old line) act ≡ true }
        ensures acted { (setup : Setup) (moment : ℕ) → acted setup self.old line moment act ≡ silently self.new }
        ensures lines { length self.new.list ≡ length self.old.list }
    {
        let place = usize::from(line) - 1;
        let was = due_on(line, &self.list[place]);
        pass_over_on(&mut self.list[place], act);
        let is = due_on(line, &self.list[place]);
        renew(&mut self.due, line, was, is);
    }
}

// The table of what falls due first of the gateway itself, and of each line.
fn filled(alloc: Global, list: &[Endpoint], own: &Post) -> Result<Due, OutOfMemory>
    requires { length list.now ≤ most_lines }
    ensures { IfOk result (λ due. InStep (endpoints_of list.now own.now) due) }
{
    let mut due = Due::new(alloc, list.len() as u16)?;
    let first = post_due(0, own);
    enter(&mut due, 0, first);
    for (place, endpoint) in list.iter().enumerate() {
        let line = place as u16 + 1;
        let first = due_on(line, endpoint);
        enter(&mut due, line, first);
    }
    Ok(due)
}

// An act that the line of an endpoint doesn't heed.
#[tactic(auto, unfolding(plain_machine::specs::Notifying::noted))]
fn pass_over_on(endpoint: &mut Endpoint, act: Act)
    requires { is_heeded endpoint.old.line act ≡ false }
    ensures { (setup : Setup) (line moment : ℕ) → silently endpoint.new ≡ acted_on setup line moment act endpoint.old }
{
    endpoint.line.pass_over(act);
}
