//! The tasks of the agents that scripts name.

/// An own action.
pub(crate) struct ActRow {
    pub(crate) pre_pub: &'static [u32],
    pub(crate) pre_priv: &'static [u32],
    pub(crate) add_pub: &'static [u32],
    pub(crate) add_priv: &'static [u32],
    pub(crate) del_pub: &'static [u32],
    pub(crate) del_priv: &'static [u32],
    pub(crate) cost: u64,
}

/// The public part of another agent's action.
pub(crate) struct FarRow {
    pub(crate) by: u16,
    pub(crate) pre: &'static [u32],
    pub(crate) add: &'static [u32],
    pub(crate) del: &'static [u32],
    pub(crate) cost: u64,
}

/// An agent's task.
pub(crate) struct TaskRow {
    pub(crate) name: &'static str,
    pub(crate) me: u16,
    pub(crate) publics: u32,
    pub(crate) privates: u32,
    pub(crate) start_pub: &'static [u32],
    pub(crate) start_priv: &'static [u32],
    pub(crate) goal_pub: &'static [u32],
    pub(crate) goal_priv: &'static [u32],
    pub(crate) acts: &'static [ActRow],
    pub(crate) far: &'static [FarRow],
    /// For each agent of the team, whether its private goals are true at the start.
    pub(crate) met: &'static [bool],
}

/// An action without facts, which costs 1.
const ACT: ActRow = ActRow {
    pre_pub: &[],
    pre_priv: &[],
    add_pub: &[],
    add_priv: &[],
    del_pub: &[],
    del_priv: &[],
    cost: 1,
};

/// A part without facts, which costs 1.
const FAR: FarRow = FarRow {
    by: 1,
    pre: &[],
    add: &[],
    del: &[],
    cost: 1,
};

/// A task of two public facts with nothing to do.
const TASK: TaskRow = TaskRow {
    name: "",
    me: 1,
    publics: 2,
    privates: 0,
    start_pub: &[],
    start_priv: &[],
    goal_pub: &[],
    goal_priv: &[],
    acts: &[],
    far: &[],
    met: &[],
};

/// The tasks by their names.
///
/// `left` and `right` are a hand-over. Agent 1 walks, and drops a thing in the middle; agent 2 lifts it, and lays it down
/// at the end. Public facts are 0 `(end)` and 1 `(mid)`, those of agent 1 are 0 `(far)` and 1 `(near)`, that of agent 2 is 0
/// `(held)`.
///
/// `key`, `door` and `room` are a team of three. Agent 1 brings a key, agent 2 opens the door with it, and agent 3 tidies
/// its room, which is its private goal. Public facts are 0 `(key)` and 1 `(open)`, that of agent 3 is 0 `(tidy)`.
pub(crate) const TASKS: [TaskRow; 5] = [
    TaskRow {
        name: "left",
        me: 1,
        privates: 2,
        start_priv: &[0],
        goal_pub: &[0],
        acts: &[
            ActRow {
                pre_priv: &[0],
                add_priv: &[1],
                del_priv: &[0],
                ..ACT
            },
            ActRow {
                pre_priv: &[1],
                add_pub: &[1],
                ..ACT
            },
        ],
        far: &[
            FarRow {
                by: 2,
                pre: &[1],
                del: &[1],
                ..FAR
            },
            FarRow {
                by: 2,
                add: &[0],
                ..FAR
            },
        ],
        met: &[true, true],
        ..TASK
    },
    TaskRow {
        name: "right",
        me: 2,
        privates: 1,
        goal_pub: &[0],
        acts: &[
            ActRow {
                pre_pub: &[1],
                add_priv: &[0],
                del_pub: &[1],
                ..ACT
            },
            ActRow {
                pre_priv: &[0],
                add_pub: &[0],
                ..ACT
            },
        ],
        far: &[FarRow {
            by: 1,
            add: &[1],
            ..FAR
        }],
        met: &[true, true],
        ..TASK
    },
    TaskRow {
        name: "key",
        me: 1,
        goal_pub: &[1],
        acts: &[ActRow {
            add_pub: &[0],
            cost: 2,
            ..ACT
        }],
        far: &[FarRow {
            by: 2,
            pre: &[0],
            add: &[1],
            ..FAR
        }],
        met: &[true, true, false],
        ..TASK
    },
    TaskRow {
        name: "door",
        me: 2,
        goal_pub: &[1],
        acts: &[ActRow {
            pre_pub: &[0],
            add_pub: &[1],
            ..ACT
        }],
        far: &[FarRow {
            by: 1,
            add: &[0],
            cost: 2,
            ..FAR
        }],
        met: &[true, true, false],
        ..TASK
    },
    TaskRow {
        name: "room",
        me: 3,
        privates: 1,
        goal_pub: &[1],
        goal_priv: &[0],
        acts: &[ActRow {
            add_priv: &[0],
            ..ACT
        }],
        far: &[
            FarRow {
                by: 1,
                add: &[0],
                cost: 2,
                ..FAR
            },
            FarRow {
                by: 2,
                pre: &[0],
                add: &[1],
                ..FAR
            },
        ],
        met: &[true, true, false],
        ..TASK
    },
];
