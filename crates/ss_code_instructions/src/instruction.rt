//! The instructions of the machine.

use crate::address::Address;
use ss_program::condition::Relation;
use ss_program::expression::{Fold, Sign, UnaryOperator};

/// One instruction.
///
/// An `Address` is that of a whole number, unless a text is spoken of. Where something is calculated, asked or read it goes
/// `to` a variable or a cell. A `cell` is the number of a cell in the frame, with the variables below it counted. A jump skips so many
/// instructions, or goes back so many. The owner of the system's set is the constant 0, and so is the entity of a statistic that
/// has none. What lies in a cell is taken off as it is read, but where an instruction says that it stays. What is `noted` is noted in
/// the histories of statistics that watch what has changed: an attribute, or how many members a set has.
#[derive(Clone, Copy, Debug, PartialEq, Eq)]
pub enum Instruction {
    // Values.
    /// A number goes to a place.
    Move {
        from: Address,
        to: Address,
    },
    /// A text goes to a place.
    MoveText {
        from: Address,
        to: Address,
    },
    /// A number goes to a global variable, and the statistics that watch that note it. What a loop keeps in a cell stays.
    Keep {
        from: Address,
        variable: u32,
    },
    /// The sum of two numbers.
    Add {
        left: Address,
        right: Address,
        to: Address,
    },
    /// Their difference.
    Subtract {
        left: Address,
        right: Address,
        to: Address,
    },
    /// Their product.
    Multiply {
        left: Address,
        right: Address,
        to: Address,
    },
    /// DIV.F
    Quotient {
        left: Address,
        right: Address,
        to: Address,
    },
    /// MOD.F
    Remainder {
        left: Address,
        right: Address,
        to: Address,
    },
    /// MIN.F
    Least {
        left: Address,
        right: Address,
        to: Address,
    },
    /// MAX.F
    Greatest {
        left: Address,
        right: Address,
        to: Address,
    },
    /// A function of one number, as ABS.F
    Unary {
        operator: UnaryOperator,
        of: Address,
        to: Address,
    },
    /// TIME.V
    Clock {
        to: Address,
    },
    /// TIME.A of a notice.
    TimeOf {
        notice: Address,
        to: Address,
    },
    /// An attribute of an entity, a number.
    Attribute {
        class: u32,
        field: u32,
        entity: Address,
        to: Address,
    },
    /// An attribute of an entity, a text.
    TextAttribute {
        class: u32,
        field: u32,
        entity: Address,
        to: Address,
    },
    /// F. of the set of an owner: its first member, 0 for none.
    FirstMember {
        set: u32,
        owner: Address,
        to: Address,
    },
    /// L.: its last member, 0 for none.
    LastMember {
        set: u32,
        owner: Address,
        to: Address,
    },
    /// N.: how many members it has.
    MemberCount {
        set: u32,
        owner: Address,
        to: Address,
    },
    /// P. of a member: the one before it, 0 for none.
    Predecessor {
        set: u32,
        member: Address,
        to: Address,
    },
    /// S.: the one after it, 0 for none.
    Successor {
        set: u32,
        member: Address,
        to: Address,
    },
    /// M.: 1 for a member of any set of the name, else 0.
    Membership {
        set: u32,
        member: Address,
        to: Address,
    },
    /// What a statistic says of an entity.
    Figure {
        statistic: u32,
        entity: Address,
        to: Address,
        fold: Fold,
    },

    // Looks: where a reference is evaluated before something that may fault. What is looked at stays.
    /// Looks at a reference to an entity of a class.
    LookEntity {
        class: u32,
        entity: Address,
    },
    /// Looks at a reference to an entity that may be a member of a set.
    LookMember {
        set: u32,
        member: Address,
    },
    /// Looks at the owner of a set.
    LookOwner {
        set: u32,
        owner: Address,
    },
    /// Looks at the mean of a statistic of an entity.
    LookMean {
        statistic: u32,
        entity: Address,
    },
    /// N. of a permanent class may be assigned a value.
    LookCount {
        class: u32,
    },

    // Attributes.
    /// A number goes to an attribute of an entity.
    SetAttribute {
        class: u32,
        field: u32,
        entity: Address,
        from: Address,
        noted: bool,
    },
    /// A text goes to an attribute of an entity.
    SetTextAttribute {
        class: u32,
        field: u32,
        entity: Address,
        from: Address,
    },
    /// A number is added to an attribute of an entity, or subtracted from it.
    ChangeAttribute {
        class: u32,
        field: u32,
        entity: Address,
        by: Address,
        sign: Sign,
        noted: bool,
    },

    // Jumps.
    /// Jumps.
    Jump {
        skip: u32,
    },
    /// Goes on where two numbers are equal, and jumps otherwise.
    UnlessEqual {
        left: Address,
        right: Address,
        skip: u32,
    },
    /// .. where they are not.
    UnlessNotEqual {
        left: Address,
        right: Address,
        skip: u32,
    },
    /// .. where the left is less.
    UnlessLess {
        left: Address,
        right: Address,
        skip: u32,
    },
    /// .. where it is greater.
    UnlessGreater {
        left: Address,
        right: Address,
        skip: u32,
    },
    /// .. where it is less or equal.
    UnlessLessOrEqual {
        left: Address,
        right: Address,
        skip: u32,
    },
    /// .. where it is greater or equal.
    UnlessGreaterOrEqual {
        left: Address,
        right: Address,
        skip: u32,
    },
    /// Goes on where two texts stand in a relation, and jumps otherwise.
    UnlessTexts {
        left: Address,
        right: Address,
        skip: u32,
        relation: Relation,
    },
    /// Goes on where no word of input is left, or one is if negated, and jumps otherwise.
    UnlessEnded {
        skip: u32,
        negated: bool,
    },
    /// Goes on where the set of an owner has no member, or has one if negated, and jumps otherwise.
    UnlessEmpty {
        set: u32,
        owner: Address,
        skip: u32,
        negated: bool,
    },
    /// Goes on where an entity is in the set of an owner, or is not if negated, and jumps otherwise.
    UnlessMember {
        set: u32,
        member: Address,
        owner: Address,
        skip: u32,
        negated: bool,
    },
    /// Takes a tick: a turn of a loop that begins with WHILE or UNTIL, and an item of a loop.
    Turn,
    /// Jumps back to a turn.
    Repeat {
        back: u32,
    },

    // FOR. What a loop keeps lies in cells, which stay until it forgets them.
    /// Looks at the first number, the limit and the step of a FOR, in three cells. Jumps where there is no item.
    Begin {
        cell: u32,
        skip: u32,
    },
    /// Puts the indices of a permanent class in three cells. Jumps where there is none.
    BeginClass {
        class: u32,
        cell: u32,
        skip: u32,
    },
    /// Takes a tick, and assigns the item or the member in a cell to a variable.
    Take {
        cell: u32,
        to: Address,
    },
    /// Jumps back where there is a next item within the limit.
    Next {
        cell: u32,
        back: u32,
    },
    /// Puts the first member of the set of an owner or, in reverse, its last in a cell, and the one that comes after it in the
    /// next, 0 for none. Jumps where there is no first. The owner stays.
    BeginSet {
        set: u32,
        owner: Address,
        cell: u32,
        skip: u32,
        reverse: bool,
    },
    /// As BeginSet, but from the member in the cell on, or from the one after it.
    BeginAt {
        set: u32,
        owner: Address,
        cell: u32,
        skip: u32,
        reverse: bool,
        after: bool,
    },
    /// Goes on where there is no next member. It must still be in the set of the owner, who stays; then it goes in the cell, the
    /// one that comes after it in the next, and this jumps back. `sifts` says what the code is there: after the Take an attribute of the
    /// member is read and compared to a variable or a constant, and where that fails it goes on here. So the machine may make
    /// many steps at once.
    NextMember {
        set: u32,
        owner: Address,
        cell: u32,
        back: u32,
        reverse: bool,
        sifts: bool,
    },
    /// Cells are forgotten: those of a loop that is left, and those that stayed.
    Forget {
        count: u32,
    },

    // Calls.
    /// Takes a tick, and calls a routine, which takes what it is given off the stack, from a cell on. What it yields comes
    /// there, the first on top.
    Call {
        routine: u32,
        cell: u32,
    },
    /// The routine, or MAIN, is left.
    Leave,
    /// The run ends.
    Halt,

    // Entities and sets.
    /// The number of a new entity.
    Create {
        class: u32,
        to: Address,
    },
    /// All entities of a permanent class are made, as many as a global variable says.
    CreateAll {
        class: u32,
        variable: u32,
    },
    /// An entity goes.
    Destroy {
        class: u32,
        entity: Address,
    },
    /// An entity becomes the first member of the set of an owner.
    FileFirst {
        set: u32,
        member: Address,
        owner: Address,
        noted: bool,
    },
    /// .. the last member.
    FileLast {
        set: u32,
        member: Address,
        owner: Address,
        noted: bool,
    },
    /// .. a member where its rank says.
    FileRanked {
        set: u32,
        member: Address,
        owner: Address,
        noted: bool,
    },
    /// .. a member directly before another one, or directly after it.
    FileBeside {
        noted: bool,
        after: bool,
        set: u32,
        member: Address,
        beside: Address,
        owner: Address,
    },
    /// A member is removed from the set of an owner.
    Remove {
        set: u32,
        member: Address,
        owner: Address,
        noted: bool,
    },
    /// The first member of the set of an owner is removed.
    RemoveFirst {
        set: u32,
        owner: Address,
        to: Address,
        noted: bool,
    },
    /// The last one.
    RemoveLast {
        set: u32,
        owner: Address,
        to: Address,
        noted: bool,
    },

    // Events.
    /// A time to schedule for, which may not be past.
    At {
        time: Address,
        to: Address,
    },
    /// The time that is so many units from now.
    In {
        units: Address,
        to: Address,
    },
    /// The number of a new notice. It takes its first attributes off the stack, so many from a cell on, and its time from the
    /// cell above these. The time goes in the first cell.
    MakeNotice {
        class: u32,
        cell: u32,
        given: u32,
        to: Address,
        noted: bool,
    },
    /// A notice is filed among those that are pending, for a time.
    FileNotice {
        class: u32,
        notice: Address,
        time: Address,
    },
    /// A notice that there is takes the same off the stack as a new one, and is filed.
    Reschedule {
        class: u32,
        notice: Address,
        cell: u32,
        given: u32,
        noted: bool,
    },
    /// A notice is pending no longer.
    Cancel {
        class: u32,
        notice: Address,
    },
    /// Goes on where a notice is pending, and jumps otherwise.
    Await {
        skip: u32,
    },
    /// Takes a tick, takes out the notice that comes next, and begins its event, whose frame begins at a cell.
    TakeEvent {
        cell: u32,
    },
    /// Jumps back where a notice is pending.
    NextEvent {
        back: u32,
    },
    /// A statistic starts afresh, of an entity.
    Reset {
        statistic: u32,
        entity: Address,
    },

    // Input and report.
    /// The next word of input, a number.
    Read {
        to: Address,
    },
    /// The next word of input, a text.
    ReadText {
        to: Address,
    },
    /// Lines are filled with items, and written. The values of these lie on the stack, from a cell on.
    Print {
        lines: u32,
        cell: u32,
    },
    /// So many empty lines are written.
    Skip {
        count: Address,
    },
}
