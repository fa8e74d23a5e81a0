//! Seats that come together.

ghost use Rattle.wbt_run_seats.specs.Rooms.{BackedHasRooms, TakenAreBacked, TogetherAreBacked};
ghost use Rattle.wbt_run_seats.specs.Together.{TogetherAtFirst, TogetherWithOneMore, RecordsComeTogether};

/// Seats may also be joined one by one.
pub fn joins_go_on()
    ensures first { TogetherAtFirst }
    ensures more { TogetherWithOneMore }
{}

/// Seats that took in those of other CPUs hold the records of all.
pub fn records_come_together()
    ensures { RecordsComeTogether }
{}

/// And have the rooms of all, so each flusher has rooms.
pub fn rooms_come_together()
    ensures together { TogetherAreBacked }
    ensures taken { TakenAreBacked }
    ensures flusher { BackedHasRooms }
{}
