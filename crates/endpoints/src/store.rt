//! The store of a gateway's endpoints and of its own post. They are looked up, changed in place, one at a time,
//! and put back where an event failed.
ghost use Rattle.std.specs.Prelude.{ℕ, ◌≡◌, ◌-◌, ◌<◌, ◌≤◌, Some, false, length, replicate, slice_set, OnOk, OnErr, IfOk};
ghost use Rattle.std.specs.Borrow.{MutBor};
ghost use Rattle.plain_machine.specs.declared.post.Post.{Post};
ghost use Rattle.plain_machine.specs.declared.setup.Setup.{Setup};
ghost use Rattle.plain_machine.specs.declared.endpoint.Endpoint.{Endpoint};
ghost use Rattle.plain_machine.specs.Effect.{silently};
ghost use Rattle.plain_machine.specs.Falling.{first_due, due_by};
ghost use Rattle.endpoints.specs.Ids.{HasId};
ghost use Rattle.endpoints.specs.Saving.{endpoints_of, IsMarked, IsSavedToo, HasRoom};
ghost use Rattle.machine_rules.specs.Lines.{most_lines};

use crate::rules::same_post;
use crate::saves::{Saved, Saves};
use crate::timed::Timed;
use mg_bytes::OutOfMemory;
use mg_line::Act;
use plain_machine::{Endpoint, Post, PostOwner, owner_of};
use std::alloc::Global;
use std::marker::Model;
use timers::DueItem;

/// The endpoints of a gateway, at most `MOST_LINES`, and its own post. A contract sees them as they are, and as the event
/// that happens found them.
///
/// What an event changes is saved at its first touch, and put back where the event fails, which takes no memory. The room
/// for that outlives the event.
pub struct Store {
    endpoints: Timed,
    saved: Saves,
    // At which places the endpoint is saved.
    touched: Vec<bool>,
    // The post of the gateway itself, where the event changed it.
    own_saved: Option<Post>,
}

// Written out: a derived drop, and those of all its parts, are proved anew by each crate that lets one go.
impl Drop for Store {
    fn drop(self) {
        let Store {
            endpoints,
            saved,
            touched,
            own_saved,
        } = self;
        drop(endpoints);
        drop(saved);
        drop(touched);
        drop(own_saved);
    }
}

impl Model for Store {
    ghost use Rattle.std.specs.Prelude.{◌≡◌, length, IfSome};
    ghost use Rattle.endpoints.specs.Ids.{HasId};
    ghost use Rattle.endpoints.specs.StoreState.{StoreState};
    ghost use Rattle.endpoints.specs.Saving.{found_in, IsMarked, HasRoom};

    ghost Value = { StoreState };

    ghost view = { λ f. record { endpoints = f.endpoints; found = found_in f.saved.list f.own_saved f.endpoints } };

    ghost invariant = { λ f. record {
      flags : length f.touched.items ≡ length f.endpoints.list;
      marked : IsMarked f.touched.items f.saved.list;
      room : HasRoom (length f.saved.list) f.touched.items f.saved.room;
      own : IfSome f.own_saved (λ own. HasId 0 own.number);
    } };
}

// Marks for so many endpoints, of which none is saved.
fn untouched(alloc: Global, count: usize) -> Result<Vec<bool>, OutOfMemory>
    ensures { IfOk result (λ touched. touched.items ≡ replicate count false) }
{
    let mut touched = Vec::new(alloc);
    touched.resize(count, false)?;
    Ok(touched)
}

// The endpoint at this place is saved, if this event didn't do so. After an error, which is for want of memory, all is as it
// was.
fn save(
    saved: &mut Saves,
    touched: &mut Vec<bool>,
    place: usize,
    endpoint: &Endpoint,
) -> Result<(), OutOfMemory>
    requires within { place < length touched.old.items }
    requires marked { IsMarked touched.old.items saved.old.list }
    requires room { HasRoom (length saved.old.list) touched.old.items saved.old.room }
    ensures ok { OnOk result (IsSavedToo place endpoint.now touched.old.items touched.new.items saved.old.list saved.new.list) }
    ensures room { OnOk result (HasRoom (length saved.new.list) touched.new.items saved.new.room) }
    ensures saved { OnErr result (saved.new ≡ saved.old) }
    ensures touched { OnErr result (touched.new ≡ touched.old) }
{
    if !touched[place] {
        saved.save(place, endpoint)?;
        touched[place] = true;
    }
    Ok(())
}

// The endpoint at this place isn't saved any more.
fn unmark(touched: &mut Vec<bool>, place: usize)
    ensures { touched.new.items ≡ slice_set touched.old.items place false }
{
    if place < touched.len() {
        touched[place] = false;
    }
}

impl Store {
    ghost use Rattle.std.specs.Prelude.{[], true, OnSome, option_copied, slice_get, slice_index_or};
    ghost use Rattle.plain_machine.specs.Machine.{serves, endpoint_at};
    ghost use Rattle.plain_machine.specs.Acting.{acted};
    ghost use Rattle.plain_machine.specs.Refusing.{is_unheeded};
    ghost use Rattle.endpoints.specs.StoreState.{committed};
    ghost use Rattle.endpoints.specs.Changing.{LineChanges, GatewayChanges, KeepsId, ComesToo};
    ghost use Rattle.endpoints.specs.Telling.{IsLine};

    /// A store with these endpoints, and with this post of the gateway itself. An error is for want of memory only.
    #[tactic(auto, unfolding(crate::specs::Saving::restored))]
    pub fn of(alloc: Global, list: Vec<Endpoint>, own: Post) -> Result<Self, OutOfMemory>
        requires few { length list.items ≤ most_lines }
        requires id { HasId 0 own.number }
        ensures { IfOk result (λ store. store ≡ committed (endpoints_of list.items own)) }
    {
        let saved = Saves::new(alloc, list.len())?;
        let touched = untouched(alloc, list.len())?;
        let endpoints = Timed::of(alloc, list, own)?;
        Ok(Store {
            endpoints,
            saved,
            touched,
            own_saved: None,
        })
    }

    /// What falls due first of all.
    pub fn first_due(&self) -> Option<DueItem>
        ensures { result ≡ first_due self.now.endpoints }
    {
        self.endpoints.first_due()
    }

    /// What falls due first of all, where it is due up to a moment (in ms).
    pub(crate) fn due_by(&self, moment: u64) -> Option<DueItem>
        ensures { result ≡ due_by self.now.endpoints moment }
    {
        self.endpoints.due_by(moment)
    }

    /// The post of the gateway itself.
    pub fn own(&self) -> &Post
        ensures value { result.now ≡ self.now.endpoints.own }
        ensures id { HasId 0 result.now.number }
    {
        self.endpoints.own()
    }

    /// Whether the gateway serves: its announcement was answered (RFC 3435, 4.4.6).
    pub fn serves(&self) -> bool
        ensures { result ≡ serves self.now.endpoints }
    {
        self.endpoints.own().restart.serving()
    }

    /// The endpoints, of which the first is that of line 1.
    pub fn list(&self) -> &[Endpoint]
        ensures value { result.now ≡ self.now.endpoints.list }
        ensures few { length result.now ≤ most_lines }
    {
        self.endpoints.list()
    }

    /// The endpoint of the line with this number, if there is one.
    pub fn endpoint(&self, line: u16) -> Option<&Endpoint>
        ensures value { option_copied result ≡ endpoint_at self.now.endpoints line }
        ensures line { OnSome result (IsLine line) }
        ensures within { OnSome result (line - 1 < length self.now.endpoints.list) }
    {
        match owner_of(line) {
            PostOwner::Gateway => None,
            PostOwner::Line(line) => self.endpoints.list().get(usize::from(line) - 1),
        }
    }

    /// The endpoint of the line with this number is changed in place, with what else the change is to see. Where memory for
    /// saving the endpoint is refused, the store is as it was.
    pub fn change<C, T, F: FnOnce(&mut Endpoint, &mut C) -> T>(
        &mut self,
        line: u16,
        with: &mut C,
        change: F,
    ) -> Result<T, OutOfMemory>
        requires line { IsLine line }
        requires within { line - 1 < length self.old.endpoints.list }
        requires callable { (p : MutBor Endpoint) (q : MutBor C) → endpoint_at self.old.endpoints line ≡ Some p.now
            → q.now ≡ with.old → F.pre change p q }
        ensures ok { IfOk result (λ r. LineChanges F.FnOnce change line self.old with.old r self.new with.new) }
        ensures err { OnErr result (self.new ≡ self.old) }
        ensures with { OnErr result (with.new ≡ with.old) }
    {
        let place = usize::from(line) - 1;
        let endpoint = &self.endpoints.list()[place];
        save(&mut self.saved, &mut self.touched, place, endpoint)?;
        Ok(self.endpoints.change(place, with, change))
    }

    /// The post of the gateway itself is changed in place, with what else the change is to see. Where memory for saving it
    /// is refused, the store is as it was.
    pub fn change_own<C, T, F: FnOnce(&mut Post, &mut C) -> T>(
        &mut self,
        with: &mut C,
        change: F,
    ) -> Result<T, OutOfMemory>
        requires callable { (p : MutBor Post) (q : MutBor C) → p.now ≡ self.old.endpoints.own → HasId 0 p.now.number
            → q.now ≡ with.old → F.pre change p q }
        requires keeps { KeepsId F.FnOnce change }
        ensures ok { IfOk result (λ r. GatewayChanges F.FnOnce change self.old with.old r self.new with.new) }
        ensures err { OnErr result (self.new ≡ self.old) }
        ensures with { OnErr result (with.new ≡ with.old) }
    {
        if self.own_saved.is_none() {
            self.own_saved = Some(same_post(self.endpoints.own())?);
        }
        Ok(self.endpoints.change_own(with, change))
    }

    /// The lines are marked whose endpoints the event changed so far, as far as there are marks, the first for line 1: where a mark
    /// isn't set the endpoint is as the event found it.
    pub fn mark_changed(&self, marks: &mut Vec<bool>)
        ensures marks { length marks.new.items ≡ length marks.old.items }
        ensures found { (place : ℕ) → slice_index_or marks.new.items place true ≡ false
            → slice_get self.now.found.list place ≡ slice_get self.now.endpoints.list place }
    {
        self.saved.mark_all(marks);
    }

    /// What is there is what the next event finds: nothing is saved any more. The room stays.
    pub fn commit(&mut self)
        ensures { self.new ≡ committed self.old.endpoints }
    {
        while let Some(place) = self.saved.forget() {
            unmark(&mut self.touched, place);
        }
        self.own_saved = None;
    }

    /// An event failed: all is again what it found. It takes no memory.
    pub fn rollback(&mut self)
        ensures { self.new ≡ committed self.old.found }
    {
        while let Some(saved) = self.saved.pop() {
            let Saved { place, endpoint } = saved;
            unmark(&mut self.touched, place);
            put_back(&mut self.endpoints, place, endpoint);
        }
        if let Some(own) = self.own_saved.take() {
            self.endpoints.exchange_own(own);
        }
    }

    /// An act at the telephone of a line that doesn't heed it. It takes no memory, and isn't saved: where nothing was saved of
    /// the line before, the act comes to what the event found too.
    pub fn pass_over(&mut self, line: u16, act: Act)
        requires line { IsLine line }
        requires within { line - 1 < length self.old.endpoints.list }
        requires unheeded { is_unheeded (endpoint_at self.old.endpoints line) act ≡ true }
        ensures acted { (setup : Setup) (moment : ℕ) →
            acted setup self.old.endpoints line moment act ≡ silently self.new.endpoints }
        ensures found { (setup : Setup) (moment : ℕ) →
            ComesToo (λ found. acted setup found line moment act) self.old.found self.new.found }
    {
        self.endpoints.pass_over(line, act);
    }
}

// The endpoint at this place, if there is one, becomes this one.
fn put_back(endpoints: &mut Timed, place: usize, endpoint: Endpoint)
    ensures { endpoints.new ≡ record endpoints.old { list = slice_set endpoints.old.list place endpoint } }
{
    if place < endpoints.list().len() {
        endpoints.exchange(place, endpoint);
    }
}
