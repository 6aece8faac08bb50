//! The members that each object may have, in byte order of their names.

/// What a member's value may be.
#[derive(Clone, Copy, Debug)]
pub(crate) enum Form {
    Any,
    Text,
    Number,
    Truth,
    /// One of these words.
    Word(&'static [&'static str]),
    Object,
    /// A list with no items.
    EmptyList,
    TextList,
    /// A list of texts and of objects.
    SourceList,
    ObjectList,
}

/// A member that an object may have.
#[derive(Clone, Copy, Debug)]
pub(crate) struct Member {
    pub name: &'static str,
    pub needed: bool,
    pub form: Form,
}

/// A whole message.
pub(crate) const TOP: &[Member] = &[
    Member {
        name: "arguments",
        needed: false,
        form: Form::Object,
    },
    Member {
        name: "execute",
        needed: true,
        form: Form::Text,
    },
    Member {
        name: "id",
        needed: false,
        form: Form::Any,
    },
];

/// The arguments of `qmp_capabilities`.
pub(crate) const CAPABILITIES: &[Member] = &[Member {
    name: "enable",
    needed: false,
    form: Form::EmptyList,
}];

/// Those of a command without any.
pub(crate) const NOTHING: &[Member] = &[];

/// Those of `block-dirty-bitmap-add`.
pub(crate) const ADD: &[Member] = &[
    Member {
        name: "disabled",
        needed: false,
        form: Form::Truth,
    },
    Member {
        name: "granularity",
        needed: false,
        form: Form::Number,
    },
    Member {
        name: "name",
        needed: true,
        form: Form::Text,
    },
    Member {
        name: "node",
        needed: true,
        form: Form::Text,
    },
    Member {
        name: "persistent",
        needed: false,
        form: Form::Truth,
    },
];

/// A bitmap by its name.
pub(crate) const NAME: &[Member] = &[
    Member {
        name: "name",
        needed: true,
        form: Form::Text,
    },
    Member {
        name: "node",
        needed: true,
        form: Form::Text,
    },
];

/// The arguments of `block-dirty-bitmap-merge`.
pub(crate) const MERGE: &[Member] = &[
    Member {
        name: "bitmaps",
        needed: true,
        form: Form::SourceList,
    },
    Member {
        name: "node",
        needed: true,
        form: Form::Text,
    },
    Member {
        name: "target",
        needed: true,
        form: Form::Text,
    },
];

const SYNC_WORDS: &[&str] = &["full", "incremental", "bitmap", "none"];

const MODE_WORDS: &[&str] = &["on-success", "never"];

/// The arguments of `blockdev-backup`.
pub(crate) const BACKUP: &[Member] = &[
    Member {
        name: "bitmap",
        needed: false,
        form: Form::Text,
    },
    Member {
        name: "bitmap-mode",
        needed: false,
        form: Form::Word(MODE_WORDS),
    },
    Member {
        name: "device",
        needed: true,
        form: Form::Text,
    },
    Member {
        name: "job-id",
        needed: false,
        form: Form::Text,
    },
    Member {
        name: "sync",
        needed: true,
        form: Form::Word(SYNC_WORDS),
    },
    Member {
        name: "target",
        needed: true,
        form: Form::Text,
    },
];

/// The same where the bitmap's granules alone are copied: then a mode is needed.
pub(crate) const BACKUP_BY_BITMAP: &[Member] = &[
    Member {
        name: "bitmap",
        needed: false,
        form: Form::Text,
    },
    Member {
        name: "bitmap-mode",
        needed: true,
        form: Form::Word(MODE_WORDS),
    },
    Member {
        name: "device",
        needed: true,
        form: Form::Text,
    },
    Member {
        name: "job-id",
        needed: false,
        form: Form::Text,
    },
    Member {
        name: "sync",
        needed: true,
        form: Form::Word(SYNC_WORDS),
    },
    Member {
        name: "target",
        needed: true,
        form: Form::Text,
    },
];

/// The arguments of `transaction`.
pub(crate) const TRANSACTION: &[Member] = &[
    Member {
        name: "actions",
        needed: true,
        form: Form::ObjectList,
    },
    Member {
        name: "properties",
        needed: false,
        form: Form::Object,
    },
];

/// The properties of a transaction.
pub(crate) const PROPERTIES: &[Member] = &[Member {
    name: "completion-mode",
    needed: false,
    form: Form::Word(&["individual"]),
}];

/// An action of a transaction.
pub(crate) const ACTION: &[Member] = &[
    Member {
        name: "data",
        needed: true,
        form: Form::Object,
    },
    Member {
        name: "type",
        needed: true,
        form: Form::Text,
    },
];

/// The arguments of `job-cancel`.
pub(crate) const ID: &[Member] = &[Member {
    name: "id",
    needed: true,
    form: Form::Text,
}];

/// Those of `query-named-block-nodes`.
pub(crate) const NODES: &[Member] = &[Member {
    name: "flat",
    needed: false,
    form: Form::Truth,
}];

/// Those of `block-export-add`.
pub(crate) const EXPORT: &[Member] = &[
    Member {
        name: "bitmaps",
        needed: false,
        form: Form::TextList,
    },
    Member {
        name: "id",
        needed: true,
        form: Form::Text,
    },
    Member {
        name: "name",
        needed: false,
        form: Form::Text,
    },
    Member {
        name: "node-name",
        needed: true,
        form: Form::Text,
    },
    Member {
        name: "type",
        needed: true,
        form: Form::Word(&["nbd"]),
    },
    Member {
        name: "writable",
        needed: false,
        form: Form::Truth,
    },
];
