//! Laws of the definitions in `specs/`.
ghost use Rattle.wgr_words.specs.Line.{WrittenWordsAreRead};
ghost use Rattle.wgr_words.specs.Reading.{ReadingsAreNoOrders};
ghost use Rattle.wgr_words.specs.Sent.{SentAsAsked};

/// What is written of the words of a line is read again as the same words, whatever follows it.
pub fn written_words_are_read()
    ensures { WrittenWordsAreRead }
{}

/// A line that spells a reading spells no order.
pub fn readings_are_no_orders()
    ensures { ReadingsAreNoOrders }
{}

/// A service reads what is sent as what its words and options ask for.
pub fn sent_as_asked()
    ensures { SentAsAsked }
{}
