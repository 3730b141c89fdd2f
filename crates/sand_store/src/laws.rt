ghost use Rattle.std.specs.Prelude.{◌≡◌, List, All};
ghost use Rattle.page_pool.specs.Pool.{PoolState, IsTold};
ghost use Rattle.sand_base.specs.InRange.{IsRowOf};
ghost use Rattle.sand_base.specs.declared.value.Value.{Value};
ghost use Rattle.sand_model.specs.Database.{Relation};
ghost use Rattle.sand_model.specs.Kept.{IsDatabase};
ghost use Rattle.sand_model.specs.Measure.{Measure, IsMeasure};
ghost use Rattle.sand_model.specs.StatementChecks.{Setting, entered};
ghost use Rattle.sand_store.specs.Calls.{loaded};
ghost use Rattle.sand_store.specs.Catalog.{CatalogView};
ghost use Rattle.sand_store.specs.Contents.{database_in};
ghost use Rattle.sand_store.specs.Standing.{IsStore};

/// The database of every store over a disk that tells its pages is one, whatever the measure: each quadtree fits its
/// relation's rows, ids ascend, names are of their own, and all is within the limits.
pub fn every_store_is_a_database()
    ensures { (catalog : CatalogView) (pool : PoolState) → IsStore catalog pool → IsTold pool → (gap : Measure) → IsMeasure gap
        → IsDatabase gap catalog.limits (database_in pool.pages catalog.relations) }
{}

/// Where all rows are of the relation's schema, the store loads them as the model enters the rows of a file.
pub fn rows_of_the_schema_are_loaded_as_entered()
    ensures { (setting : Setting) (rows : List (List Value)) (relation : Relation) → All (IsRowOf relation.schema) rows → loaded setting rows relation ≡ entered setting rows relation }
{}
