//! Options, and what each is answered.

ghost use Rattle.std.specs.Prelude.{◌≡◌, ◌<◌, ◌≤◌, ◌^◌, ℕ, [], ◌++◌, length, if◌then◌else◌, None, Some, IfOk, OnOk, OnErr, MatchOption};
ghost use Rattle.nbd_model.specs.Numbers.{be32, server, info, err_too_big};
ghost use Rattle.nbd_model.specs.Options as options;
ghost use Rattle.nbd_model.specs.Sessions as sessions;
ghost use Rattle.nbd_session.specs.Negotiating.{IsDealt, IsPlain, dropped, told};
ghost use Rattle.nbd_session.specs.Parts.{plain_agreed, Grows};

use crate::agreed::Agreed;
use crate::agreeing::copy_of;
use crate::contexts::{contexts_of, select, write_listed, write_selected};
use core_events::{ExportInfo, ExportList, Memory, Names};
use nbd_codec::{NbdFault, read_info, read_meta, write_option_reply};
use span_algebra::Bytes;
use std::alloc::{AllocError, Global};

const EXPORT_NAME: u32 = 1;

const ABORT: u32 = 2;

const LIST: u32 = 3;

const INFO: u32 = 6;

const GO: u32 = 7;

const STRUCTURED_REPLY: u32 = 8;

const LIST_META_CONTEXT: u32 = 9;

const SET_META_CONTEXT: u32 = 10;

pub(crate) const ACK: u32 = 1;

const SERVER: u32 = 2;

const INFORMATION: u32 = 3;

const ERR_UNSUP: u32 = 0x8000_0001;

const ERR_INVALID: u32 = 0x8000_0003;

const ERR_UNKNOWN: u32 = 0x8000_0006;

pub(crate) const ERR_TOO_BIG: u32 = 0x8000_0009;

/// Sizes of blocks: least, preferred and greatest.
const BLOCK_SIZES: &[u8] = b"\x00\x03\x00\x00\x00\x01\x00\x00\x10\x00\x02\x00\x00\x00";

/// What an option came to.
#[derive(Clone, Copy, Debug, PartialEq, Eq)]
pub(crate) enum Dealt {
    /// It is answered.
    Answered,
    /// The connection is to be hung up.
    HangUp,
}

/// The export of this name.
fn export_of<'a>(name: &[u8], exports: &'a ExportList) -> Option<&'a ExportInfo>
    ensures { MatchOption result (options.export_of name.now exports.now ≡ None) (λ e. options.export_of name.now exports.now ≡ Some e.now) }
{
    for export in &exports.items {
        if name == export.name.items.as_slice() {
            return Some(export);
        }
    }
    None
}

/// A number of 32 bits, and a text behind it. No reply has room for 2^32 bytes, so a text of so many is as one that there is no
/// memory for.
pub(crate) fn numbered(alloc: Global, number: u32, text: &[u8]) -> Result<Vec<u8>, Memory>
    ensures bytes { IfOk result (λ v. v.items ≡ be32 number ++ text.now) }
    ensures fits { IfOk result (λ v. length v.items < 2 ^ 32) }
{
    if text.len() > 0xffff_fffb {
        return Err(AllocError);
    }
    let mut bytes = Vec::with_capacity(alloc, 4 + text.len())?;
    bytes.extend_from_slice(&number.to_be_bytes())?;
    bytes.extend_from_slice(text)?;
    Ok(bytes)
}

/// A text with its length before it.
fn counted(alloc: Global, text: &[u8]) -> Result<Vec<u8>, Memory>
    ensures bytes { IfOk result (λ v. v.items ≡ options.counted_text text.now) }
    ensures fits { IfOk result (λ v. length v.items < 2 ^ 32) }
{
    if text.len() > 0xffff_fffb {
        return Err(AllocError);
    }
    numbered(alloc, text.len() as u32, text)
}

/// An error's reply to an option.
fn refuse(alloc: Global, option: u32, kind: u32, out: &mut Bytes) -> Result<Dealt, Memory>
    ensures dealt { IfOk result (λ dealt. dealt ≡ Dealt.Answered) }
    ensures sent { OnOk result (out.new.items.items ≡ out.old.items.items ++ options.option_error option kind) }
    ensures begun { OnErr result (Grows out.old.items.items out.new.items.items) }
{
    write_option_reply(alloc, option, kind, &[], out)?;
    Ok(Dealt::Answered)
}

/// The export's size and transmission flags.
fn size_and_flags(export: &ExportInfo) -> [u8; 10]
    ensures { result ≡ options.size_and_flags export.now }
{
    let s = export.size.to_be_bytes();
    let flags = if export.writable { 0x4d } else { 0x07 };
    [s[0], s[1], s[2], s[3], s[4], s[5], s[6], s[7], 0x00, flags]
}

/// The information on an export.
fn export_info(export: &ExportInfo) -> [u8; 12]
    ensures { result ≡ options.export_info export.now }
{
    let s = size_and_flags(export);
    [
        0x00, 0x00, s[0], s[1], s[2], s[3], s[4], s[5], s[6], s[7], s[8], s[9],
    ]
}

/// What EXPORT_NAME is answered.
fn write_chosen(no_zeroes: bool, export: &ExportInfo, out: &mut Bytes) -> Result<(), Memory>
    ensures sent { OnOk result (out.new.items.items ≡ out.old.items.items ++ (options.size_and_flags export.now ++ sessions.zeros_if no_zeroes)) }
    ensures begun { OnErr result (Grows out.old.items.items out.new.items.items) }
{
    out.items.extend_from_slice(&size_and_flags(export))?;
    if !no_zeroes {
        out.items.extend_from_slice(&[0; 124])?;
    }
    Ok(())
}

/// An export's reply to LIST.
fn write_server(
    alloc: Global,
    option: u32,
    export: &ExportInfo,
    out: &mut Bytes,
) -> Result<(), Memory>
    ensures sent { OnOk result (out.new.items.items ≡ out.old.items.items ++ options.option_reply option server (options.counted_text export.now.name)) }
    ensures kept { OnErr result (out.new.items.items ≡ out.old.items.items) }
{
    let content = counted(alloc, export.name.items.as_slice())?;
    write_option_reply(alloc, option, SERVER, &content, out)
}

/// The replies to LIST.
#[tactic(auto, using(crate::proofs::Growing::grows_not, crate::proofs::Growing::grows_by))]
fn write_list(
    alloc: Global,
    option: u32,
    exports: &ExportList,
    out: &mut Bytes,
) -> Result<(), Memory>
    ensures sent { OnOk result (out.new.items.items ≡ out.old.items.items ++ options.list_replies option exports.now) }
    ensures begun { OnErr result (Grows out.old.items.items out.new.items.items) }
{
    for export in &exports.items {
        write_server(alloc, option, export, out)?;
    }
    write_option_reply(alloc, option, ACK, &[], out)
}

/// The sizes of blocks, where they are asked.
fn write_sizes(alloc: Global, option: u32, sizes: bool, out: &mut Bytes) -> Result<(), Memory>
    ensures sent { OnOk result (out.new.items.items ≡ out.old.items.items ++ (if sizes then options.option_reply option info options.block_info else [])) }
    ensures kept { OnErr result (out.new.items.items ≡ out.old.items.items) }
{
    if sizes {
        write_option_reply(alloc, option, INFORMATION, BLOCK_SIZES, out)?;
    }
    Ok(())
}

/// The replies to INFO and GO.
#[tactic(auto, using(crate::proofs::Growing::grows_not, crate::proofs::Growing::grows_by))]
fn write_info(
    alloc: Global,
    option: u32,
    sizes: bool,
    export: &ExportInfo,
    out: &mut Bytes,
) -> Result<(), Memory>
    ensures sent { OnOk result (out.new.items.items ≡ out.old.items.items ++ options.info_replies option sizes export.now) }
    ensures begun { OnErr result (Grows out.old.items.items out.new.items.items) }
{
    write_option_reply(alloc, option, INFORMATION, &export_info(export), out)?;
    write_sizes(alloc, option, sizes, out)?;
    write_option_reply(alloc, option, ACK, &[], out)
}

impl Agreed {
    /// Answers an option whose content is here.
    pub(crate) fn take_option(
        &mut self,
        alloc: Global,
        option: u32,
        content: &[u8],
        exports: &ExportList,
        out: &mut Bytes,
    ) -> Result<Dealt, Memory>
        ensures dealt { IfOk result (λ dealt. (used : ℕ) → IsDealt (sessions.option_taken used option content.now exports.now (plain_agreed self.old)) used (plain_agreed self.new) out.old.items.items out.new.items.items dealt) }
        ensures kept { OnErr result (self.new ≡ self.old) }
        ensures sent { OnErr result (out.new.items.items ≡ out.old.items.items) }
    {
        let before = out.items.len();
        let result = self.answer(alloc, option, content, exports, out);
        if result.is_err() {
            out.items.truncate(before);
        }
        result
    }

    /// Answers an option, or begins to where there is no memory.
    fn answer(
        &mut self,
        alloc: Global,
        option: u32,
        content: &[u8],
        exports: &ExportList,
        out: &mut Bytes,
    ) -> Result<Dealt, Memory>
        ensures dealt { IfOk result (λ dealt. (used : ℕ) → IsDealt (sessions.option_taken used option content.now exports.now (plain_agreed self.old)) used (plain_agreed self.new) out.old.items.items out.new.items.items dealt) }
        ensures kept { OnErr result (self.new ≡ self.old) }
        ensures begun { OnErr result (Grows out.old.items.items out.new.items.items) }
    {
        if option == EXPORT_NAME {
            self.name_export(alloc, content, exports, out)
        } else if option == ABORT {
            write_option_reply(alloc, option, ACK, &[], out)?;
            Ok(Dealt::HangUp)
        } else if option == LIST || option == STRUCTURED_REPLY {
            self.answer_plain(alloc, option, content, exports, out)
        } else if option == INFO || option == GO {
            self.inform(alloc, option, content, exports, out)
        } else if option == LIST_META_CONTEXT || option == SET_META_CONTEXT {
            self.answer_meta(alloc, option, content, exports, out)
        } else {
            refuse(alloc, option, ERR_UNSUP, out)
        }
    }

    /// EXPORT_NAME.
    fn name_export(
        &mut self,
        alloc: Global,
        content: &[u8],
        exports: &ExportList,
        out: &mut Bytes,
    ) -> Result<Dealt, Memory>
        ensures dealt { IfOk result (λ dealt. (used : ℕ) → IsDealt (sessions.export_name used (options.export_of content.now exports.now) (plain_agreed self.old)) used (plain_agreed self.new) out.old.items.items out.new.items.items dealt) }
        ensures kept { OnErr result (self.new ≡ self.old) }
        ensures begun { OnErr result (Grows out.old.items.items out.new.items.items) }
    {
        let Some(export) = export_of(content, exports) else {
            return Ok(Dealt::HangUp);
        };
        let name = copy_of(alloc, &export.name)?;
        write_chosen(self.no_zeroes, export, out)?;
        self.begin(name);
        Ok(Dealt::Answered)
    }

    /// LIST and STRUCTURED_REPLY, which have no content.
    fn answer_plain(
        &mut self,
        alloc: Global,
        option: u32,
        content: &[u8],
        exports: &ExportList,
        out: &mut Bytes,
    ) -> Result<Dealt, Memory>
        requires { IsPlain option }
        ensures dealt { IfOk result (λ dealt. (used : ℕ) → IsDealt (sessions.option_taken used option content.now exports.now (plain_agreed self.old)) used (plain_agreed self.new) out.old.items.items out.new.items.items dealt) }
        ensures kept { OnErr result (self.new ≡ self.old) }
        ensures begun { OnErr result (Grows out.old.items.items out.new.items.items) }
    {
        if !content.is_empty() {
            return refuse(alloc, option, ERR_INVALID, out);
        }
        if option == LIST {
            write_list(alloc, option, exports, out)?;
        } else {
            write_option_reply(alloc, option, ACK, &[], out)?;
            self.structured = true;
        }
        Ok(Dealt::Answered)
    }

    /// INFO and GO.
    fn inform(
        &mut self,
        alloc: Global,
        option: u32,
        content: &[u8],
        exports: &ExportList,
        out: &mut Bytes,
    ) -> Result<Dealt, Memory>
        ensures dealt { IfOk result (λ dealt. (used : ℕ) → IsDealt (sessions.info_option used option exports.now (options.info_of content.now) (plain_agreed self.old)) used (plain_agreed self.new) out.old.items.items out.new.items.items dealt) }
        ensures kept { OnErr result (self.new ≡ self.old) }
        ensures begun { OnErr result (Grows out.old.items.items out.new.items.items) }
    {
        let ask = match read_info(alloc, content) {
            Ok(ask) => ask,
            Err(NbdFault::Memory) => return Err(AllocError),
            Err(NbdFault::BadForm) => return refuse(alloc, option, ERR_INVALID, out),
            Err(NbdFault::TooMany(_)) => return refuse(alloc, option, ERR_INVALID, out),
        };
        let Some(export) = export_of(&ask.name.items, exports) else {
            return refuse(alloc, option, ERR_UNKNOWN, out);
        };
        let name = copy_of(alloc, &export.name)?;
        write_info(alloc, option, ask.sizes, export, out)?;
        self.begin_if(option == GO, name);
        Ok(Dealt::Answered)
    }

    /// Refuses LIST_META_CONTEXT or SET_META_CONTEXT. The latter drops the earlier selection also then.
    fn refuse_meta(
        &mut self,
        alloc: Global,
        option: u32,
        kind: u32,
        out: &mut Bytes,
    ) -> Result<Dealt, Memory>
        ensures dealt { IfOk result (λ dealt. dealt ≡ Dealt.Answered) }
        ensures next { OnOk result (plain_agreed self.new ≡ dropped option (plain_agreed self.old)) }
        ensures sent { OnOk result (out.new.items.items ≡ out.old.items.items ++ options.option_error option kind) }
        ensures kept { OnErr result (self.new ≡ self.old) }
        ensures begun { OnErr result (out.new.items.items ≡ out.old.items.items) }
    {
        write_option_reply(alloc, option, kind, &[], out)?;
        if option == SET_META_CONTEXT {
            self.drop_selection();
        }
        Ok(Dealt::Answered)
    }

    /// An option that is longer than one may be was skipped.
    pub(crate) fn skip_option(
        &mut self,
        alloc: Global,
        option: u32,
        out: &mut Bytes,
    ) -> Result<(), Memory>
        ensures next { OnOk result (plain_agreed self.new ≡ dropped option (plain_agreed self.old)) }
        ensures sent { OnOk result (out.new.items.items ≡ out.old.items.items ++ options.option_error option err_too_big) }
        ensures kept { OnErr result (self.new ≡ self.old) }
        ensures begun { OnErr result (out.new.items.items ≡ out.old.items.items) }
    {
        self.refuse_meta(alloc, option, ERR_TOO_BIG, out)?;
        Ok(())
    }

    /// LIST_META_CONTEXT and SET_META_CONTEXT.
    #[tactic(auto, using(crate::proofs::Growing::grows_not))]
    fn answer_meta(
        &mut self,
        alloc: Global,
        option: u32,
        content: &[u8],
        exports: &ExportList,
        out: &mut Bytes,
    ) -> Result<Dealt, Memory>
        ensures dealt { IfOk result (λ dealt. (used : ℕ) → IsDealt (sessions.meta_option used option exports.now (options.meta_of content.now) (plain_agreed self.old)) used (plain_agreed self.new) out.old.items.items out.new.items.items dealt) }
        ensures kept { OnErr result (self.new ≡ self.old) }
        ensures begun { OnErr result (Grows out.old.items.items out.new.items.items) }
    {
        if !self.structured {
            return self.refuse_meta(alloc, option, ERR_INVALID, out);
        }
        match read_meta(alloc, content) {
            Ok(ask) => match export_of(&ask.name.items, exports) {
                None => self.refuse_meta(alloc, option, ERR_UNKNOWN, out),
                Some(export) => self.tell_contexts(alloc, option, &ask.queries, export, out),
            },
            Err(NbdFault::Memory) => Err(AllocError),
            Err(NbdFault::BadForm) => self.refuse_meta(alloc, option, ERR_INVALID, out),
            Err(NbdFault::TooMany(name)) => {
                let known = export_of(&name.items, exports).is_some();
                let kind = if known { ERR_TOO_BIG } else { ERR_UNKNOWN };
                self.refuse_meta(alloc, option, kind, out)
            }
        }
    }

    /// Lists or selects contexts of an export.
    fn tell_contexts(
        &mut self,
        alloc: Global,
        option: u32,
        queries: &Names,
        export: &ExportInfo,
        out: &mut Bytes,
    ) -> Result<Dealt, Memory>
        requires { length queries.now ≤ options.most_queries }
        ensures dealt { IfOk result (λ dealt. (used : ℕ) → IsDealt (told used option queries.now export.now (plain_agreed self.old)) used (plain_agreed self.new) out.old.items.items out.new.items.items dealt) }
        ensures kept { OnErr result (self.new ≡ self.old) }
        ensures begun { OnErr result (Grows out.old.items.items out.new.items.items) }
    {
        let contexts = contexts_of(alloc, export)?;
        if option == SET_META_CONTEXT {
            let selected = select(alloc, queries, &contexts)?;
            let name = copy_of(alloc, &export.name)?;
            write_selected(alloc, option, &selected, out)?;
            self.selected = selected;
            self.selected_of = name;
        } else {
            write_listed(alloc, option, queries, &contexts, out)?;
        }
        Ok(Dealt::Answered)
    }
}
