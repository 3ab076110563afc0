//! Sets of recipes, computed. The functions do nothing; their clauses are the law.
ghost use Rattle.std.specs.Prelude.{◌≡◌, ◌++◌, ◌∷◌, [], codes, map, Ok};
ghost use Rattle.std.specs.List.{flat_map};
ghost use Rattle.hex.specs.Hex.{decode_of};
ghost use Rattle.load_header.specs.HeaderFields.{header_size, pointers_of};
ghost use Rattle.media_build.specs.RecipeSets.{files_list_bytes, gathered, header_bytes, header_of};
ghost use Rattle.media_build.specs.RecipeSets.{header_start, loads_list_bytes, batch_body};
ghost use Rattle.media_build.specs.RecipeSets.{batches_list_bytes, batches_of, recipe_bodies};
ghost use Rattle.media_build.specs.WorkedSet.{nine_bytes, no_bytes, one_load, one_load_recipe};
ghost use Rattle.media_build.specs.WorkedSet.{one_batch_recipe, three_files};

/// The header and both lists of a recipe of one load with one data file, byte for byte; how long
/// the header of a larger load is, and where its sections begin; and how positions are gathered.
pub fn worked_set()
    ensures header { decode_of (
        codes "0000003d80040000000000140000001d00000021000000250000002600000037"
        ++ codes "0000003800000039000f41424334312d303030302d3030303100000341505000"
        ++ codes "0007000100034857310000000001000000074150502e42494e00000441505031"
        ++ codes "00000005000000000000000929b10000000000007042adc08c7f")
        ≡ Ok (header_bytes (header_of nine_bytes one_load)) }
    ensures loads { decode_of (
        codes "0000002b900400000000000a0000001400000029000f58595a35412d30303030"
        ++ codes "2d3030303100010100010000000f41424334312d303030302d30303031000007"
        ++ codes "4150502e4c5548000001000100034857310000008143")
        ≡ Ok (loads_list_bytes one_load_recipe 1) }
    ensures files { decode_of (
        codes "0000002ba00400000000000a0000001400000029000f58595a35412d30303030"
        ++ codes "2d303030310001010002000a00074150502e4c55480000015c000001248a0000"
        ++ codes "00074150502e42494e0000015c00000129b100001569")
        ≡ Ok (files_list_bytes nine_bytes one_load_recipe 1) }
    ensures size { header_size (header_start no_bytes three_files) ≡ 210 }
    ensures pointers { pointers_of (header_start no_bytes three_files) ≡ record {
      part = 20;
      type_name = 29;
      hardware = 35;
      positions = 40;
      data_files = 48;
      support_files = 81;
      user = 98;
      check_value = 101;
    } }
    ensures gathered { gathered ((codes "A", codes "1") ∷ (codes "B", codes "2")
        ∷ (codes "A", codes "3") ∷ [])
        ≡ record { hardware = codes "A"; positions = codes "1" ∷ codes "3" ∷ [] }
        ∷ record { hardware = codes "B"; positions = codes "2" ∷ [] } ∷ [] }
{}

/// The files of a set with one batch for two targets, and the batch's file and list, byte for byte.
pub fn worked_batch()
    ensures files { map (λ body. body.name) (recipe_bodies nine_bytes one_batch_recipe)
        ≡ codes "APP.LUH" ∷ codes "APP.BIN" ∷ codes "TWO.LUB" ∷ [] }
    ensures file { decode_of (
        codes "0000002dc0040000000f41424334332d303030302d3030303300000200034857"
        ++ codes "310000014c000001000f41424334312d303030302d3030303100000348573100"
        ++ codes "000152000001000f41424334312d303030302d303030310053ee")
        ≡ Ok (flat_map (λ batch. (batch_body batch).bytes) (batches_of one_batch_recipe)) }
    ensures list { decode_of (
        codes "00000027b00400000000000a0000001400000025000f58595a35412d30303030"
        ++ codes "2d3030303100010100010000000f41424334332d303030302d30303033000007"
        ++ codes "54574f2e4c5542000001000032ab")
        ≡ Ok (batches_list_bytes one_batch_recipe 1) }
{}
