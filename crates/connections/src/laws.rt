//! Laws of connections, in the words of their subject. Each function has an empty body: its clauses are the theorems.
ghost use Rattle.std.specs.Prelude.{◌≡◌, ◌≢◌, ◌+◌, ◌<◌, ◌≤◌, ℕ, List, length, filter, true, false, nat_lt, get_or, Option, Some, None, Ok, Err};
ghost use Rattle.std.specs.List.{list_any};
ghost use Rattle.connections.specs.declared.answer.Created.{Created};
ghost use Rattle.connections.specs.declared.codec.Codecs.{Codecs};
ghost use Rattle.connections.specs.declared.codec.Encoding.{Encoding};
ghost use Rattle.connections.specs.declared.connection.Agreement.{Agreement};
ghost use Rattle.connections.specs.declared.connection.Change.{Change};
ghost use Rattle.connections.specs.declared.connection.Connection.{Connection};
ghost use Rattle.connections.specs.declared.connection.Creation.{Creation};
ghost use Rattle.connections.specs.declared.deletion.Deletion.{Deletion};
ghost use Rattle.connections.specs.Codecs.{offers, listed, listed_or_none, offered_of};
ghost use Rattle.connections.specs.Numbers.{names_number, greatest};
ghost use Rattle.connections.specs.Connection.{agreed, can_be, begun, begun_with, given_or, remote_or, renewed, renewed_to, is_changed};
ghost use Rattle.connections.specs.Places.{is_free, holds_call, holds_both, place_where};
ghost use Rattle.connections.specs.Standing.{Standing, Left, described, answered_by, created, created_done, place_of, modified, deleted};
ghost use Rattle.connections.specs.Life.{Happening, creates, modifies, deletes, after_one, after};

/// A connection gets the number after the last one, and no later connection of the line gets it again, whatever happens in
/// between (RFC 3435, 2.1.3). No number is past the greatest.
pub fn a_number_is_never_used_again()
    ensures next { (encoding : Encoding) (creation : Creation) (standing : Standing) (done : Left Created) →
        created encoding creation standing ≡ Ok done →
        (done.answer.number ≡ standing.last + 1) × (done.leaves.last ≡ standing.last + 1) }
    ensures never_less { (standing : Standing) (happenings : List Happening) →
        standing.last ≤ (after standing happenings).last }
    ensures never_past { (standing : Standing) (happenings : List Happening) →
        standing.last ≤ greatest → (after standing happenings).last ≤ greatest }
    ensures again { (encoding other : Encoding) (creation later : Creation) (standing : Standing)
        (happenings : List Happening) (first second : Left Created) → created encoding creation standing ≡ Ok first →
        created other later (after first.leaves happenings) ≡ Ok second → first.answer.number < second.answer.number }
{}

/// Connections at two places of a line receive at two ports.
pub fn two_places_have_two_ports()
    ensures { (standing : Standing) (place other : ℕ) (connection next : Connection) → place ≢ other →
        (described standing place connection).port ≢ (described standing other next).port }
{}

/// A command that is refused changes nothing.
pub fn what_is_refused_changes_nothing()
    ensures creation { (encoding : Encoding) (creation : Creation) (standing : Standing) (code : ℕ) →
        created encoding creation standing ≡ Err code → after_one standing (creates encoding creation) ≡ standing }
    ensures change { (encoding : Encoding) (call id : List ℕ) (change : Change) (standing : Standing) (code : ℕ) →
        modified encoding call id change standing ≡ Err code →
        after_one standing (modifies encoding call id change) ≡ standing }
    ensures deletion { (deletion : Deletion) (standing : Standing) (code : ℕ) →
        deleted deletion standing ≡ Err code → after_one standing (deletes deletion) ≡ standing }
{}

/// The codes of CreateConnection in their order (RFC 3435, 2.3.5): no free place 540, no further number 502, no codec 534, a
/// mode that sends without a remote description 527; else the connection stands.
pub fn a_creation_is_refused_in_this_order()
    ensures no_place { (encoding : Encoding) (creation : Creation) (standing : Standing) →
        place_where is_free standing.places ≡ None → created encoding creation standing ≡ Err 540 }
    ensures no_number { (encoding : Encoding) (creation : Creation) (standing : Standing) (place : ℕ) →
        place_where is_free standing.places ≡ Some place → nat_lt standing.last greatest ≡ false →
        created encoding creation standing ≡ Err 502 }
    ensures no_codec { (encoding : Encoding) (creation : Creation) (standing : Standing) (place : ℕ) →
        place_where is_free standing.places ≡ Some place → nat_lt standing.last greatest ≡ true →
        agreed creation.options.codecs encoding creation.remote ≡ None → created encoding creation standing ≡ Err 534 }
    ensures no_mode { (encoding : Encoding) (creation : Creation) (standing : Standing) (place : ℕ) (codecs : Agreement) →
        place_where is_free standing.places ≡ Some place → nat_lt standing.last greatest ≡ true →
        agreed creation.options.codecs encoding creation.remote ≡ Some codecs →
        can_be creation.mode creation.remote ≡ false → created encoding creation standing ≡ Err 527 }
    ensures stands { (encoding : Encoding) (creation : Creation) (standing : Standing) (place : ℕ) (codecs : Agreement) →
        place_where is_free standing.places ≡ Some place → nat_lt standing.last greatest ≡ true →
        agreed creation.options.codecs encoding creation.remote ≡ Some codecs →
        can_be creation.mode creation.remote ≡ true → created encoding creation standing
        ≡ Ok (created_done standing place (standing.last + 1) (begun_with creation (standing.last + 1) codecs)) }
{}

/// The codes of ModifyConnection in their order (RFC 3435, 2.3.6): no connection of the call 516, none of them with this
/// identifier 515; then those of what the connection becomes: no codec 534, a mode that sends without a remote description
/// 527, no further version 502.
pub fn a_modification_is_refused_in_this_order()
    ensures no_call { (encoding : Encoding) (call id : List ℕ) (change : Change) (standing : Standing) →
        list_any (holds_call call) standing.places ≡ false → modified encoding call id change standing ≡ Err 516 }
    ensures no_id { (encoding : Encoding) (call id : List ℕ) (change : Change) (standing : Standing) →
        list_any (holds_call call) standing.places ≡ true → place_where (holds_both call id) standing.places ≡ None →
        modified encoding call id change standing ≡ Err 515 }
    ensures not_renewed { (encoding : Encoding) (call id : List ℕ) (change : Change) (standing : Standing) (place code : ℕ)
        (was : Connection) → list_any (holds_call call) standing.places ≡ true →
        place_where (holds_both call id) standing.places ≡ Some place → get_or standing.places place None ≡ Some was →
        renewed encoding change was ≡ Err code → modified encoding call id change standing ≡ Err code }
    ensures no_codec { (encoding : Encoding) (change : Change) (was : Connection) →
        agreed (given_or change.options was.options).codecs encoding (remote_or change.remote was.remote) ≡ None →
        renewed encoding change was ≡ Err 534 }
    ensures no_mode { (encoding : Encoding) (change : Change) (was : Connection) (codecs : Agreement) →
        agreed (given_or change.options was.options).codecs encoding (remote_or change.remote was.remote) ≡ Some codecs →
        can_be (given_or change.mode was.mode) (remote_or change.remote was.remote) ≡ false →
        renewed encoding change was ≡ Err 527 }
    ensures no_version { (encoding : Encoding) (change : Change) (was : Connection) (codecs : Agreement) →
        agreed (given_or change.options was.options).codecs encoding (remote_or change.remote was.remote) ≡ Some codecs →
        can_be (given_or change.mode was.mode) (remote_or change.remote was.remote) ≡ true →
        is_changed was (given_or change.options was.options) codecs ≡ true → nat_lt was.version greatest ≡ false →
        renewed encoding change was ≡ Err 502 }
{}

/// Of a list those codecs are in force that the remote description offers, in the order of the list (RFC 3435, 2.3.5).
pub fn what_both_have_is_in_force()
    ensures { (payloads : List ℕ) (codecs : Codecs) →
        listed_or_none (offered_of payloads codecs) ≡ filter (offers payloads) (listed codecs) }
{}

/// A connection that is modified has the next version where its list of codecs in force or its packet time has changed
/// (RFC 2327, 6), and its description is answered; where neither has, version and description stay, and nothing is
/// answered.
pub fn a_version_has_one_description()
    ensures next { (encoding : Encoding) (change : Change) (was is : Connection) →
        renewed encoding change was ≡ Ok is →
        (listed is.codecs.in_force ≡ listed was.codecs.in_force →
        is.options.packet_time ≡ was.options.packet_time → ⊥) → is.version ≡ was.version + 1 }
    ensures stays { (encoding : Encoding) (change : Change) (was is : Connection) →
        renewed encoding change was ≡ Ok is →
        listed is.codecs.in_force ≡ listed was.codecs.in_force →
        is.options.packet_time ≡ was.options.packet_time → is.version ≡ was.version }
    ensures same { (encoding : Encoding) (change : Change) (was is : Connection) (standing : Standing) (place : ℕ) →
        renewed encoding change was ≡ Ok is →
        listed is.codecs.in_force ≡ listed was.codecs.in_force →
        is.options.packet_time ≡ was.options.packet_time →
        described standing place is ≡ described standing place was }
    ensures told { (encoding : Encoding) (call id : List ℕ) (change : Change) (standing : Standing) (place : ℕ)
        (was is : Connection) → place_of call id standing.places ≡ Ok place →
        get_or standing.places place None ≡ Some was → renewed encoding change was ≡ Ok is →
        (listed is.codecs.in_force ≡ listed was.codecs.in_force →
        is.options.packet_time ≡ was.options.packet_time → ⊥) →
        answered_by (modified encoding call id change standing) ≡ Ok (Some (described standing place is)) }
    ensures untold { (encoding : Encoding) (call id : List ℕ) (change : Change) (standing : Standing) (place : ℕ)
        (was is : Connection) → place_of call id standing.places ≡ Ok place →
        get_or standing.places place None ≡ Some was → renewed encoding change was ≡ Ok is →
        listed is.codecs.in_force ≡ listed was.codecs.in_force →
        is.options.packet_time ≡ was.options.packet_time →
        answered_by (modified encoding call id change standing) ≡ Ok None }
{}

/// An identifier names one number at most, in whatever case it is written (RFC 3435, 2.1.3), and so one connection of a
/// line.
pub fn an_identifier_names_one_number()
    ensures { (id : List ℕ) (number other : ℕ) → number ≤ greatest → other ≤ greatest →
        names_number id number ≡ true → names_number id other ≡ true → number ≡ other }
{}
