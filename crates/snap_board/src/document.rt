//! A JSON document that is being written.

use json::Writer;
use snap_order::line_of;
use std::alloc::{AllocError, Global};

/// A JSON document. If memory for a part of it runs out, it has no text in the end.
#[derive(Drop)]
pub(crate) struct Document {
    writer: Writer,
    /// Whether memory was enough so far.
    is_whole: bool,
}

impl Document {
    pub(crate) fn new(alloc: Global) -> Document {
        Document {
            writer: Writer::new(Vec::new(alloc)),
            is_whole: true,
        }
    }

    pub(crate) fn begin_object(&mut self) {
        self.is_whole &= self.writer.begin_object().is_ok();
    }

    pub(crate) fn end_object(&mut self) {
        self.is_whole &= self.writer.end_object().is_ok();
    }

    pub(crate) fn key(&mut self, name: &str) {
        self.is_whole &= self.writer.key(name).is_ok();
    }

    /// Begins a member that is a list.
    pub(crate) fn begin_list(&mut self, name: &str) {
        self.key(name);
        self.is_whole &= self.writer.begin_array().is_ok();
    }

    pub(crate) fn end_list(&mut self) {
        self.is_whole &= self.writer.end_array().is_ok();
    }

    /// Writes a number of a list.
    pub(crate) fn number(&mut self, number: u64) {
        self.is_whole &= self.writer.u64(number).is_ok();
    }

    /// Writes a text of a list.
    pub(crate) fn text(&mut self, text: &str) {
        self.is_whole &= self.writer.string(text).is_ok();
    }

    /// Writes a number as a member, or `null` if it isn't known.
    pub(crate) fn put_number(&mut self, name: &str, number: Option<u64>) {
        self.key(name);
        match number {
            Some(number) => self.number(number),
            None => self.is_whole &= self.writer.null().is_ok(),
        }
    }

    /// Writes a text as a member, or `null` if it isn't known.
    pub(crate) fn put_text(&mut self, name: &str, text: Option<&str>) {
        self.key(name);
        match text {
            Some(text) => self.text(text),
            None => self.is_whole &= self.writer.null().is_ok(),
        }
    }

    pub(crate) fn put_boolean(&mut self, name: &str, is_so: bool) {
        self.key(name);
        self.is_whole &= self.writer.boolean(is_so).is_ok();
    }

    /// The document on one line. The error is that memory ran out.
    pub(crate) fn line(self) -> Result<Vec<u8>, AllocError> {
        let Document { writer, is_whole } = self;
        if !is_whole {
            return Err(AllocError);
        }
        line_of(writer)
    }
}
