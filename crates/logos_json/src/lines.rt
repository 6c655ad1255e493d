//! Contains `JsonLines`, which writes lines of JSON token by token. Used by `logos_messages` and
//! `logos_records`.

ghost use Rattle.std.specs.Prelude.{◌≡◌, ◌↔◌, ◌∷◌, [], true, IfOk, IsOk, IsTrue, decimal, option_map};
ghost use Rattle.logos_json.specs.Imports.{Ends, Finishes, Gains, bool_member, byte_tokens, bytes_member, flat_map, list_member, maybe_bytes, maybe_number, maybe_text, null_member, number_member, text_member, begin_array, begin_object, boolean, end_array, end_object, key, null, number, string};

use json::Writer;
use std::alloc::{AllocError, Global};
use std::marker::Model;
use std::{mem, str};

/// Lines of JSON to which tokens are appended. The value records whether memory ran out, so that
/// `finish` is the only method that can fail.
#[derive(Drop)]
pub struct JsonLines {
    writer: Writer,
    alloc: Global,
    is_whole: bool,
}

impl Model for JsonLines {
    ghost use Rattle.logos_json.specs.Lines.{LinesValue};

    ghost Value = { LinesValue };

    ghost view = { λ lines. record {
      before = lines.writer.before;
      tokens = lines.writer.tokens;
      is_whole = lines.is_whole;
    } };
}

impl JsonLines {
    /// Returns lines of JSON that follow the bytes `out`. The first line is empty.
    pub fn new(alloc: Global, out: Vec<u8>) -> JsonLines
        ensures { result ≡ record { before = out.items; tokens = []; is_whole = true } }
    {
        JsonLines {
            writer: Writer::new(out),
            alloc,
            is_whole: true,
        }
    }

    /// Appends the beginning of an object.
    pub fn begin_object(&mut self)
        ensures { Gains (begin_object ∷ []) self.old self.new }
    {
        if self.writer.begin_object().is_err() {
            self.is_whole = false;
        }
    }

    /// Appends the end of an object.
    pub fn end_object(&mut self)
        ensures { Gains (end_object ∷ []) self.old self.new }
    {
        if self.writer.end_object().is_err() {
            self.is_whole = false;
        }
    }

    /// Appends the beginning of a list.
    fn begin_array(&mut self)
        ensures { Gains (begin_array ∷ []) self.old self.new }
    {
        if self.writer.begin_array().is_err() {
            self.is_whole = false;
        }
    }

    /// Appends the end of a list.
    pub fn end_list(&mut self)
        ensures { Gains (end_array ∷ []) self.old self.new }
    {
        if self.writer.end_array().is_err() {
            self.is_whole = false;
        }
    }

    /// Appends the name of a member. The caller appends the value of the member next.
    pub fn push_name(&mut self, name: &str)
        ensures { Gains (key name.now ∷ []) self.old self.new }
    {
        if self.writer.key(name).is_err() {
            self.is_whole = false;
        }
    }

    /// Appends the name of a member and the beginning of a list, which is the value of the member.
    /// The caller appends the elements and the end of the list next.
    pub fn begin_list(&mut self, name: &str)
        ensures { Gains (key name.now ∷ begin_array ∷ []) self.old self.new }
    {
        self.push_name(name);
        self.begin_array();
    }

    /// Appends a text as the value of a member.
    fn string(&mut self, text: &str)
        ensures { Gains (string text.now ∷ []) self.old self.new }
    {
        if self.writer.string(text).is_err() {
            self.is_whole = false;
        }
    }

    /// Appends a number as the value of a member or as an element of a list.
    fn number(&mut self, value: usize)
        ensures { Gains (number (decimal value) ∷ []) self.old self.new }
    {
        if self.writer.u64(value as u64).is_err() {
            self.is_whole = false;
        }
    }

    /// Appends a boolean as the value of a member.
    fn boolean(&mut self, value: bool)
        ensures { Gains (boolean value ∷ []) self.old self.new }
    {
        if self.writer.boolean(value).is_err() {
            self.is_whole = false;
        }
    }

    /// Appends null as the value of a member.
    fn null(&mut self)
        ensures { Gains (null ∷ []) self.old self.new }
    {
        if self.writer.null().is_err() {
            self.is_whole = false;
        }
    }

    /// Appends the member `name` with the text `text`.
    pub fn push_text(&mut self, name: &str, text: &str)
        ensures { Gains (text_member name.now text.now) self.old self.new }
    {
        self.push_name(name);
        self.string(text);
    }

    /// Appends the member `name` with the number `value`.
    pub fn push_number(&mut self, name: &str, value: usize)
        ensures { Gains (number_member name.now value) self.old self.new }
    {
        self.push_name(name);
        self.number(value);
    }

    /// Appends the member `name` with the boolean `value`.
    pub fn push_bool(&mut self, name: &str, value: bool)
        ensures { Gains (bool_member name.now value) self.old self.new }
    {
        self.push_name(name);
        self.boolean(value);
    }

    /// Appends the member `name` with null.
    pub fn push_null(&mut self, name: &str)
        ensures { Gains (null_member name.now) self.old self.new }
    {
        self.push_name(name);
        self.null();
    }

    /// Appends the member `name` with a text, or with null if `text` is `None`.
    pub fn push_maybe_text(&mut self, name: &str, text: Option<&str>)
        ensures { Gains (maybe_text name.now (option_map (λ t. t.now) text.entry)) self.old self.new }
    {
        match text {
            Some(text) => self.push_text(name, text),
            None => self.push_null(name),
        }
    }

    /// Appends the member `name` with a number, or with null if `value` is `None`.
    pub fn push_maybe_number(&mut self, name: &str, value: Option<usize>)
        ensures { Gains (maybe_number name.now value) self.old self.new }
    {
        match value {
            Some(value) => self.push_number(name, value),
            None => self.push_null(name),
        }
    }

    /// Appends the member `name` with bytes: a text if the bytes are UTF-8, and a list of numbers
    /// otherwise.
    pub fn push_bytes(&mut self, name: &str, bytes: &[u8])
        ensures { Gains (bytes_member name.now bytes.now) self.old self.new }
    {
        match str::from_utf8(bytes) {
            Ok(text) => self.push_text(name, text),
            Err(_) => self.push_list(name, bytes),
        }
    }

    /// Appends the member `name` with bytes as `push_bytes` does, or with null if `bytes` is
    /// `None`.
    pub fn push_maybe_bytes(&mut self, name: &str, bytes: Option<&[u8]>)
        ensures { Gains (maybe_bytes name.now (option_map (λ b. b.now) bytes.entry)) self.old
            self.new }
    {
        match bytes {
            Some(bytes) => self.push_bytes(name, bytes),
            None => self.push_null(name),
        }
    }

    /// Appends the member `name` with a list of `bytes` as numbers.
    fn push_list(&mut self, name: &str, bytes: &[u8])
        ensures { Gains (list_member name.now (flat_map byte_tokens bytes.now)) self.old self.new }
    {
        self.begin_list(name);
        self.push_elements(bytes);
        self.end_list();
    }

    /// Appends each of `bytes` as a number that is an element of a list.
    fn push_elements(&mut self, bytes: &[u8])
        ensures { Gains (flat_map byte_tokens bytes.now) self.old self.new }
    {
        for byte in bytes {
            self.number(*byte as usize);
        }
    }

    /// Ends the line with LF, and begins an empty line.
    pub fn end_line(&mut self)
        ensures { Ends self.old self.new }
    {
        let writer = mem::replace(&mut self.writer, Writer::new(Vec::new(self.alloc)));
        let mut out = writer.into_inner();
        let is_ended = out.push(b'\n').is_ok();
        self.writer = Writer::new(out);
        self.is_whole = self.is_whole & is_ended;
    }

    /// Returns the bytes with which the value was made, followed by the bytes of all lines. The
    /// last line must have been ended.
    ///
    /// # Errors
    ///
    /// Returns `AllocError` if memory ran out at any call.
    pub fn finish(self) -> Result<Vec<u8>, AllocError>
        ensures whole { IsOk result ↔ IsTrue self.is_whole }
        ensures bytes { IfOk result (λ out. Finishes self out.items) }
    {
        if self.is_whole {
            Ok(self.writer.into_inner())
        } else {
            Err(AllocError)
        }
    }
}
