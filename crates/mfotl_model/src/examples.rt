//! Examples that were worked out by hand, as theorems on the definitions. Each call does nothing: its
//! clauses are the examples.
ghost use Rattle.mfotl_model.specs.OperatorExamples.{AtomsAndComparisons, BooleanOperators, BoundsAddUp};
ghost use Rattle.mfotl_model.specs.OperatorExamples.{FutureOperators, PastOperators, PreviousAndNext};
ghost use Rattle.mfotl_model.specs.OperatorExamples.{Quantifiers, SettledNextToTheOperand};
ghost use Rattle.mfotl_model.specs.OperatorExamples.{SettledOnceReached, SettledPastTheBound};
ghost use Rattle.mfotl_model.specs.OperatorExamples.{SettledWithBothOperands, SettledWithTheOperand};
ghost use Rattle.mfotl_model.specs.TableExamples.{AtomsMatch, PartsOfRows, PartsOfValues, SlicesOfEvents};
ghost use Rattle.mfotl_model.specs.TableExamples.{TablesHaveRows, WorkersOfRows};
ghost use Rattle.mfotl_model.specs.TextExamples.{ColumnsInOrderOfOccurrence, ConstantsAreInTheDomain};
ghost use Rattle.mfotl_model.specs.TextExamples.{EqualTimestampsStayApart, NextTimePointCounts, NoColumns};
ghost use Rattle.mfotl_model.specs.TextExamples.{RowsAscendInALine, SinceIsCutOff};
ghost use Rattle.mfotl_model.specs.TextExamples.{UnboundedFutureWaitsForEver, UntilIsBroken};
ghost use Rattle.mfotl_model.specs.TextExamples.{VerdictWaitsForTheBound, WithinSevenDays};
ghost use Rattle.mfotl_model.specs.ValueExamples.{EndsBelongToIntervals, EventsInOrder, RowsInOrder};
ghost use Rattle.mfotl_model.specs.ValueExamples.{ValuesCompare, ValuesInOrder};
ghost use Rattle.mfotl_model.specs.VariableExamples.{ActiveDomains, Constants, FreeVariables};

/// The text of one log under one policy.
pub fn worked_texts()
    ensures within_seven_days { WithinSevenDays }
    ensures verdict_waits_for_the_bound { VerdictWaitsForTheBound }
    ensures equal_timestamps_stay_apart { EqualTimestampsStayApart }
    ensures rows_ascend_in_a_line { RowsAscendInALine }
    ensures since_is_cut_off { SinceIsCutOff }
    ensures next_time_point_counts { NextTimePointCounts }
    ensures until_is_broken { UntilIsBroken }
    ensures constants_are_in_the_domain { ConstantsAreInTheDomain }
    ensures columns_in_order_of_occurrence { ColumnsInOrderOfOccurrence }
    ensures no_columns { NoColumns }
    ensures unbounded_future_waits_for_ever { UnboundedFutureWaitsForEver }
{}

/// Orders, comparisons and intervals.
pub fn worked_values()
    ensures values_in_order { ValuesInOrder }
    ensures rows_in_order { RowsInOrder }
    ensures events_in_order { EventsInOrder }
    ensures values_compare { ValuesCompare }
    ensures ends_belong_to_intervals { EndsBelongToIntervals }
{}

/// When each operator holds.
pub fn worked_operators()
    ensures boolean_operators { BooleanOperators }
    ensures quantifiers { Quantifiers }
    ensures atoms_and_comparisons { AtomsAndComparisons }
    ensures previous_and_next { PreviousAndNext }
    ensures past_operators { PastOperators }
    ensures future_operators { FutureOperators }
{}

/// When each operator is settled.
pub fn worked_settling()
    ensures once_reached { SettledOnceReached }
    ensures with_both_operands { SettledWithBothOperands }
    ensures with_the_operand { SettledWithTheOperand }
    ensures past_the_bound { SettledPastTheBound }
    ensures next_to_the_operand { SettledNextToTheOperand }
    ensures bounds_add_up { BoundsAddUp }
{}

/// Free variables, constants and the active domain.
pub fn worked_variables()
    ensures free_variables { FreeVariables }
    ensures constants { Constants }
    ensures active_domains { ActiveDomains }
{}

/// Tables, atoms and events.
pub fn worked_tables()
    ensures tables_have_rows { TablesHaveRows }
    ensures parts_of_rows { PartsOfRows }
    ensures atoms_match { AtomsMatch }
{}

/// Strategies and slices.
pub fn worked_strategies()
    ensures parts_of_values { PartsOfValues }
    ensures workers_of_rows { WorkersOfRows }
    ensures slices_of_events { SlicesOfEvents }
{}
