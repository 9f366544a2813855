//! Laws of the definitions in `specs/`. Each function does nothing: its contract is the law.
ghost use Rattle.wgr_prog.specs.Laws.{OrdersAreRead, ReadingsAreRead, ShownTextsAreWhole, TextsAreRead};

/// A text with its length is read as this text, whatever its bytes.
pub fn texts_are_read()
    ensures { TextsAreRead }
{}

/// A text is shown only if it has come with its length, and all of it: one that is cut short isn't.
pub fn shown_texts_are_whole()
    ensures { ShownTextsAreWhole }
{}

/// What a service answers to an order is read as the exit status of the same order given as a command.
pub fn orders_are_read()
    ensures { OrdersAreRead }
{}

/// What a service answers to a reading is read as the text that it shows, or as the exit status of the same reading
/// given as a command.
pub fn readings_are_read()
    ensures { ReadingsAreRead }
{}
